// The file watch.sheet of the current folder.
ghost use Rattle.io.specs.Counts.{IsPrefixLen};

use crate::reading::read_some;
use crate::saying::say_failed;
use std::fs;
use std::io::{Error, ErrorKind, Read};
use std::rt::Runtime;

// Says why the file was not opened: that it is missing, or what else.
fn say_not_opened<R: Runtime>(rt: &R, error: &Error) {
    if error.kind() == ErrorKind::NotFound {
        let _ = rt.eprintln("watch: no file watch.sheet in the current folder: it counts as empty");
    } else {
        say_failed(rt, "watch.sheet", error);
    }
}

// The bytes of the opened file at the front of buf, and how many there are. A read that fails does not make a shorter sheet: standard error says
// why, and there are 0.
fn read_sheet<R: Runtime, F: Read>(rt: &R, file: &mut F, buf: &mut [u8]) -> usize
    ensures { IsPrefixLen result buf.new }
{
    // Kept: std's read_to_end gives up at a read that is to be repeated later, and what `watch` then does may not change.
    let mut count: usize = 0;
    while count < buf.len() {
        match read_some(rt, file, &mut buf[count..]) {
            Ok(0) => return count,
            Ok(more) => count += more,
            Err(error) => {
                say_failed(rt, "watch.sheet", &error);
                return 0;
            }
        }
    }
    count
}

// The file's bytes at the front of buf, and how many there are: 0 where it is missing or cannot be read, and standard error says which. The largest
// legal sheet has 16,513 bytes, so that a longer file is seen to be longer.
pub(crate) fn load<R: Runtime>(rt: &R, buf: &mut [u8]) -> usize
    ensures { IsPrefixLen result buf.new }
{
    match fs::open(rt, "watch.sheet") {
        Ok(mut file) => read_sheet(rt, &mut file, buf),
        Err(error) => {
            say_not_opened(rt, &error);
            0
        }
    }
}
