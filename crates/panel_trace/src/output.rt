// Writing the lines.
use crate::trying::{pause_or_fail, run_out};
use std::io;
use std::time::Clock;

// Writes all of a text: a write that takes a part of it goes on behind that part.
pub(crate) fn write_text(rt: &(impl Print + Clock), text: &[u8]) -> io::Result<()> {
    let mut rest = text;
    for _ in 0..u64::MAX {
        if rest.is_empty() {
            return Ok(());
        }
        match rt.write_some(rest) {
            Ok(count) => rest = &rest[count..],
            Err(error) => pause_or_fail(rt, error)?,
        }
    }
    if rest.is_empty() {
        return Ok(());
    }
    Err(run_out())
}
