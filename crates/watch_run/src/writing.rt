// Writing a line to standard output whole, however few of its bytes each write takes. A line that cannot be written is not lost in silence: standard
// error says why.
ghost use Rattle.std.specs.Prelude.{◌≤◌, length, IfOk};

use crate::saying::{Told, say_failed};
use crate::waiting::is_to_be_repeated;
use std::rt::Runtime;

// One write of what is left of a line: how many bytes it took. There is no use in another where standard error was told.
fn write_some<R: Runtime>(rt: &R, rest: &[u8]) -> Result<usize, Told>
    ensures { IfOk result (λ taken. taken ≤ length rest.now) }
{
    match rt.write_some(rest) {
        Ok(0) => {
            let _ = rt.eprintln("watch: standard output: it takes nothing");
            Err(Told)
        }
        Ok(taken) => Ok(taken),
        Err(error) if is_to_be_repeated(rt, &error) => Ok(0),
        Err(error) => Err(say_failed(rt, "standard output", &error)),
    }
}

// Writes all of a line, or says why that cannot be. A proved loop has to end, so it counts its turns up to a number that no run reaches.
pub(crate) fn write_line<R: Runtime>(rt: &R, line: &[u8]) -> Result<(), Told> {
    let mut rest = line;
    for _ in 0..u64::MAX {
        if rest.is_empty() {
            return Ok(());
        }
        let taken = write_some(rt, rest)?;
        rest = &rest[taken..];
    }
    Err(Told)
}
