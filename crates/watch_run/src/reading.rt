// Reading what a file or standard input has now. A read that failed is told apart from the end of the input.
ghost use Rattle.std.specs.Io.{ReadsAtMost};

use crate::waiting::is_to_be_repeated;
use std::io;
use std::io::{ErrorKind, Read};
use std::time::Clock;

// Reads at least one byte to the front of buf, unless the input has ended or the read fails, and answers how many: 0 at the end of the input. A proved
// loop has to end, so it counts its turns up to a number that no run reaches.
pub(crate) fn read_some<F: Read>(
    clock: &impl Clock,
    from: &mut F,
    buf: &mut [u8],
) -> io::Result<usize>
    ensures { ReadsAtMost result buf.new }
{
    for _ in 0..u64::MAX {
        // Kept: no `?`, since what a read that failed is asked comes first.
        match from.read(buf) {
            Ok(count) => return Ok(count),
            Err(error) if is_to_be_repeated(clock, &error) => {}
            Err(error) => return Err(error),
        }
    }
    Err(io::Error::from(ErrorKind::TimedOut))
}
