// Bytes laid at the front of an array of zeros.
ghost use Rattle.std.specs.Prelude.{◌≡◌, ◌-◌, ◌≤◌, length, take, drop};
ghost use Rattle.wire.specs.Room.{over};
ghost use Rattle.frame.specs.Frame.{longest_frame};
ghost use Rattle.line.specs.State.{padded};

use crate::Reader;
use frame::LONGEST_FRAME;

// These bytes at the front of a new array.
pub(crate) fn packed(s: &[u8]) -> [u8; LONGEST_FRAME]
    requires { length s.now ≤ longest_frame }
    ensures { result ≡ padded longest_frame s.now }
{
    let mut out = wire::zeros();
    out[..s.len()].copy_from_slice(s);
    out
}

// Lays the bytes held from one place to another over the front of an array.
fn copy_held(reader: Reader, from: usize, to: usize, out: &mut [u8])
    requires { (from ≤ to) × (to ≤ longest_frame) × (to - from ≤ length out.old) }
    ensures { out.new ≡ over (take (to - from) (drop from reader.held)) out.old }
{
    // A local, since to lend a part of a reader copies all of it.
    let held = reader.held;
    out[..to - from].copy_from_slice(&held[from..to]);
}

// The same, where nothing may be there to lay. A reader lent by value is copied at a call: so the call stands behind the test.
pub(crate) fn put_held(reader: Reader, from: usize, to: usize, out: &mut [u8])
    requires { (from ≤ to) × (to ≤ longest_frame) × (to - from ≤ length out.old) }
    ensures { out.new ≡ over (take (to - from) (drop from reader.held)) out.old }
{
    if from < to {
        copy_held(reader, from, to, out);
    }
}
