// Reading the input.
ghost use Rattle.std.specs.Prelude.{◌≤◌, length, IfOk};

use crate::trying::{pause_or_fail, run_out};
use std::io::{self, Read};
use std::time::Clock;

// One read that is done, of what has come by now, so that whoever writes to a pipe gets the answers before writing on: how many bytes, 0 at the
// end of the input.
pub(crate) fn read_some<R: Read>(
    rt: &impl Clock,
    input: &mut R,
    bytes: &mut [u8],
) -> io::Result<usize>
    ensures { IfOk result (λ count. count ≤ length bytes.new) }
{
    for _ in 0..u64::MAX {
        match input.read(bytes) {
            Ok(count) => return Ok(count),
            Err(error) => pause_or_fail(rt, error)?,
        }
    }
    Err(run_out())
}
