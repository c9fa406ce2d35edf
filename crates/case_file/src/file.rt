// A file of cases, and what is said of it on standard output. A program's file `stdout` has none of these lines, so a file that is not read whole does
// not pass.
ghost use Rattle.io.specs.Counts.{IsPrefixLen};
ghost use Rattle.std.specs.Prelude.{IfOk, IfSome};
ghost use Rattle.std.specs.Io.{ReadsAtMost};

use std::io::{ErrorKind, Read};
use std::rt::Files;
use std::{fs, io, str};

// Says what is wrong with a file or a line.
fn say(rt: &impl Print, what: &[u8], of: &[u8]) -> io::Result<()> {
    rt.write_all(what)?;
    rt.write_all(of)?;
    rt.write_all(b"\n")
}

// Reads until buf is full or the file ends, and answers how many bytes stand at the front of buf then.
fn read_full<F: Read>(file: &mut F, buf: &mut [u8]) -> io::Result<usize>
    ensures { ReadsAtMost result buf.new }
{
    // Kept: `load` promises its count of the lent buffer's own bytes, and std's read_to_end fills a Vec.
    let mut count: usize = 0;
    for _ in 0..u64::MAX {
        match file.read(&mut buf[count..]) {
            Ok(0) => return Ok(count),
            Ok(more) => count += more,
            Err(error) if error.kind() == ErrorKind::Interrupted => {}
            Err(error) => return Err(error),
        }
    }
    Ok(count)
}

// The bytes of a file at the front of buf, and how many there are. None where the file cannot be opened, or is not shorter than buf, and it says so.
pub fn load<R: Files + Print>(rt: &R, name: &[u8], buf: &mut [u8]) -> io::Result<Option<usize>>
    ensures { IfOk result (λ loaded. IfSome loaded (λ count. IsPrefixLen count buf.new)) }
{
    let opened = match str::from_utf8(name) {
        Ok(path) => fs::open(rt, path),
        Err(_) => Err(io::Error::from(ErrorKind::InvalidFilename)),
    };
    let Ok(mut file) = opened else {
        say(rt, b"cannot be opened: ", name)?;
        return Ok(None);
    };
    let count = read_full(&mut file, buf)?;
    if count == buf.len() {
        say(rt, b"too long: ", name)?;
        return Ok(None);
    }
    Ok(Some(count))
}

// Says that a line is no case.
pub fn say_malformed(rt: &impl Print, line: &[u8]) -> io::Result<()> {
    say(rt, b"malformed: ", line)
}
