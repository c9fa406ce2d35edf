// Taking standard input, a chunk at a time: the engine reads the rule once for as many flag bytes as the report has room for.
ghost use Rattle.std.specs.Io.{ReadsAtMost};

use crate::output::{print_end, print_refusal, print_violation};
use crate::reading::read_some;
use crate::saying::{Told, say_failed};
use engine::State;
use std::io::Read;
use std::rt::Runtime;

// One read of what the input has now, so that a pipe is followed: 0 bytes at its end.
fn read_input<R: Runtime, I: Read>(rt: &R, input: &mut I, buf: &mut [u8]) -> Result<usize, Told>
    ensures { ReadsAtMost result buf.new }
{
    read_some(rt, input, buf).map_err(|error| say_failed(rt, "standard input", &error))
}

// Prints the first `count` pairs of a report, each a tick and the step that decided it.
fn print_pairs<R: Runtime>(rt: &R, report: &[u64], count: usize) -> Result<(), Told> {
    let (pairs, _) = report.as_chunks::<2>();
    for [tick, step] in pairs.iter().take(count) {
        print_violation(rt, *tick, *step)?;
    }
    Ok(())
}

// An opened rule that is watched: what its steps so far left, the memory that it was lent, and how many violations there were.
#[derive(Drop)]
pub(crate) struct Watch<'a> {
    pub(crate) state: State,
    pub(crate) history: &'a mut [u8],
    pub(crate) cells: &'a mut [u32],
    pub(crate) report: &'a mut [u64],
    pub(crate) violations: u64,
}

impl<'a> Watch<'a> {
    // Takes as many flag bytes as the report has room for, and answers how many. A refused batch prints its number and ends the run.
    fn take_flags<R: Runtime>(&mut self, rt: &R, flags: &[u8]) -> Result<usize, Told> {
        match engine::steps(
            &mut self.state,
            flags,
            self.history,
            self.cells,
            self.report,
        ) {
            Ok(batch) => {
                print_pairs(rt, self.report, batch.pairs)?;
                self.violations = self.violations.saturating_add(batch.pairs as u64);
                Ok(batch.taken)
            }
            Err(refusal) => {
                print_refusal(rt, refusal)?;
                Err(Told)
            }
        }
    }

    // Takes the bytes of one chunk. A batch takes at least one of them, since the report has room for every step; a proved loop is told so by a test.
    fn take_chunk<R: Runtime>(&mut self, rt: &R, chunk: &[u8]) -> Result<(), Told> {
        // Kept: a while, since it goes on by what a batch takes.
        let mut left = chunk;
        while !left.is_empty() {
            let taken = self.take_flags(rt, left)?;
            if taken == 0 || left.len() < taken {
                return Ok(());
            }
            left = &left[taken..];
        }
        Ok(())
    }

    // Takes the whole input. A proved loop has to end, so it counts its turns up to a number that no run reaches: each turn but the last takes a tick,
    // and there are 2^62 of them.
    fn take_all<R: Runtime, I: Read>(&mut self, rt: &R, input: &mut I) -> Result<(), Told> {
        let mut buf = [0u8; 4096];
        for _ in 0..u64::MAX {
            let count = read_input(rt, input, &mut buf)?;
            if count == 0 {
                return Ok(());
            }
            self.take_chunk(rt, &buf[..count])?;
        }
        Err(Told)
    }

    // Takes the whole input and prints the end line at its end, and nowhere else.
    pub(crate) fn take_input<R: Runtime>(&mut self, rt: &R) -> Result<(), Told> {
        let mut input = rt.reader();
        self.take_all(rt, &mut input)?;
        print_end(rt, self.state.next, self.violations, self.state.live)
    }
}
