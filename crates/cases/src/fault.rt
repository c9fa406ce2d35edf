// Why a case was not taken.
use case_file::Malformed;
use std::io;

// The line is no case, or standard output could not be written.
#[derive(Debug, Drop)]
pub(crate) enum Fault {
    Malformed,
    Unwritten(io::Error),
}

impl From<Malformed> for Fault {
    fn from(_: Malformed) -> Fault {
        Fault::Malformed
    }
}

impl From<io::Error> for Fault {
    fn from(error: io::Error) -> Fault {
        Fault::Unwritten(error)
    }
}
