// What is done where a call of the system fails.
use std::io::{self, ErrorKind};
use std::thread;
use std::time::{Clock, Duration};

// A call that was interrupted or is not ready yet gets a millisecond, to be made again: there is no call that waits until a stream is ready.
// Any other error is handed on.
pub(crate) fn pause_or_fail(rt: &impl Clock, error: io::Error) -> io::Result<()> {
    match error.kind() {
        ErrorKind::Interrupted | ErrorKind::WouldBlock => {
            thread::sleep(rt, Duration::from_millis(1));
            Ok(())
        }
        _ => Err(error),
    }
}

// What a loop that has to end says where it is at its end.
pub(crate) fn run_out() -> io::Error {
    io::Error::new(ErrorKind::TimedOut, "more calls than can be counted")
}
