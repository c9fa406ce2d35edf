// Figures of bodies: each refusal from 4 to 15, 23 and 24 at its boundary and just inside it, and the cases of document 01. A case is a name and a body.
// tests/oracle/figures.py works out the same.
use crate::fault::Fault;
use case_file::read_bytes;
use outcome_text::Refused;
use std::io;

// A body's figures or refusal.
fn answer(out: &impl Print, body: &[u8]) -> io::Result<()> {
    match figures::figures(body) {
        Ok(figures) => {
            let history = figures.history;
            let delay = figures.delay;
            let cells = figures.cells;
            println!(out; "history {history} delay {delay} cells {cells}")
        }
        Err(refusal) => out.println(Refused(refusal)),
    }
}

// One line: a body's name and its figures or refusal.
pub(crate) fn take_case(out: &impl Print, name: &[u8], field: &[u8]) -> Result<(), Fault> {
    let mut space = [0u8; 4096];
    let count = read_bytes(field, &mut space)?;
    out.write_all(name)?;
    out.write_all(b": ")?;
    answer(out, &space[..count])?;
    Ok(())
}
