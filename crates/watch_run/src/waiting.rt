// Whether a read or a write that failed is to be made again.
use std::io::{Error, ErrorKind};
use std::thread;
use std::time::{Clock, Duration};

// Waits five thousandths of a second for a descriptor that does not block and is not ready: no longer than a tick takes at 200 a second.
fn pause(clock: &impl Clock) {
    thread::sleep(clock, Duration::from_millis(5));
}

// True where the call that just failed was interrupted, or where its descriptor does not block and is not ready: then a little later.
pub(crate) fn is_to_be_repeated(clock: &impl Clock, error: &Error) -> bool {
    match error.kind() {
        ErrorKind::Interrupted => true,
        ErrorKind::WouldBlock => {
            pause(clock);
            true
        }
        _ => false,
    }
}
