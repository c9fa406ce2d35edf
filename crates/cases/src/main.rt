// Test cases from files of data/, a line each, as the crate case_file reads them: bodies and their figures, recordings and the outcomes over them, sheets
// and what `watch` prints of them. The file stdout is what tests/oracle works out from the papers alone, from the same lines (tests/oracle/run runs it).
#![tactic(auto)]

mod bodies;
mod fault;
mod recordings;
mod sheets;

use case_file::{Malformed, is_case, lines_of, load, say_malformed, split_name};
use fault::Fault;
use std::io;
use std::rt::Runtime;

// A line that is a case, by what takes a case from its name and its fields.
fn take_line<R: Runtime, Take: Fn(&R, &[u8], &[u8]) -> Result<(), Fault>>(
    rt: &R,
    take_case: &Take,
    line: &[u8],
) -> Result<(), Fault>
    requires { Take.IsAlwaysCallable take_case.now }
{
    let (name, fields) = split_name(line).ok_or(Malformed)?;
    take_case(rt, name, fields)
}

// The cases of a file. It says which line is malformed and goes on with the next.
fn take_file<R: Runtime, Take: Fn(&R, &[u8], &[u8]) -> Result<(), Fault>>(
    rt: &R,
    take_case: Take,
    name: &[u8],
) -> io::Result<()>
    requires { Take.IsAlwaysCallable take_case }
{
    let mut space = [0u8; 65536];
    let Some(count) = load(rt, name, &mut space)? else {
        return Ok(());
    };
    for line in lines_of(&space[..count]) {
        if is_case(line) {
            match take_line(rt, &take_case, line) {
                Ok(()) => {}
                Err(Fault::Malformed) => say_malformed(rt, line)?,
                Err(Fault::Unwritten(error)) => return Err(error),
            }
        }
    }
    Ok(())
}

fn main(rt: HostRuntime) -> io::Result<()> {
    take_file(&rt, bodies::take_case, b"bodies.txt")?;
    take_file(&rt, recordings::take_case, b"recordings.txt")?;
    take_file(&rt, sheets::take_case, b"sheets.txt")
}
