// Outcomes over short recordings, and refused bodies. A case is a name, a body and flag bytes, of which every tick is shown and the one after the end; or
// these and a tick, which alone is shown. tests/oracle/outcomes.py works out the same.
use crate::fault::Fault;
use case_file::{Malformed, read_bytes, split_bar, split_number};
use outcome_text::{bytes, outcome};
use std::io;

// The tick that a field asks for: a number behind a blank, and nothing else.
fn tick_of(field: &[u8]) -> Result<usize, Malformed> {
    match field {
        [_, number @ ..] => match split_number(number) {
            Some((tick, [])) => Ok(tick),
            _ => Err(Malformed),
        },
        [] => Err(Malformed),
    }
}

// A name, a body and a recording.
#[derive(Clone, Copy)]
struct Case<'a> {
    name: &'a [u8],
    body: &'a [u8],
    flags: &'a [u8],
}

impl<'a> Case<'a> {
    // What was asked for: one tick, or every tick and the one after the end.
    fn show(&self, out: &impl Print, asked: Option<usize>) -> io::Result<()> {
        out.write_all(self.name)?;
        bytes(out, b"\nbody", self.body)?;
        match asked {
            Some(tick) => outcome(out, self.body, self.flags, tick),
            None => self.show_all(out),
        }
    }

    // The flag bytes and every tick.
    fn show_all(&self, out: &impl Print) -> io::Result<()> {
        bytes(out, b"flags", self.flags)?;
        for tick in 0..=self.flags.len() {
            outcome(out, self.body, self.flags, tick)?;
        }
        Ok(())
    }
}

pub(crate) fn take_case(out: &impl Print, name: &[u8], fields: &[u8]) -> Result<(), Fault> {
    let (body_field, rest) = split_bar(fields).ok_or(Malformed)?;
    let (flag_field, asked) = match split_bar(rest) {
        Some((flags, tick)) => (flags, Some(tick_of(tick)?)),
        None => (rest, None),
    };
    let mut body_space = [0u8; 4096];
    let body_count = read_bytes(body_field, &mut body_space)?;
    let mut flag_space = [0u8; 65536];
    let flag_count = read_bytes(flag_field, &mut flag_space)?;
    let case = Case {
        name,
        body: &body_space[..body_count],
        flags: &flag_space[..flag_count],
    };
    case.show(out, asked)?;
    Ok(())
}
