// Settling: going past all that is passed over, and bringing what is left to the front of an array. One function for each place where the bytes stand,
// since each array is written once: in the array itself, in a slice whose reader is new, in a reader behind a report.
ghost use Rattle.std.specs.Prelude.{◌≡◌, [], ◌-◌, ◌≤◌, length, take, drop};
ghost use Rattle.frame.specs.Frame.{longest_frame};
ghost use Rattle.line.specs.Inner.{Held, left_of, rest_of, reader_with};
ghost use Rattle.line.specs.State.{rules_for, padded, settled_reader};
ghost use Rattle.place.specs.Looks.{stop_of};

use crate::{Line, Reader, Rest, arrays};
use place::{Look, Stop};

// Goes past all that is passed over of the n bytes held in an open stretch, and brings what is left to the front.
pub(crate) fn settle_in(line: Line, held: &mut [u8], n: usize) -> Rest
    requires { Held n held.old }
    ensures { (result ≡ rest_of line (take n held.old)) × (held.new ≡ padded longest_frame (left_of line (take n held.old))) }
{
    let stop = place::first_stop(line.header, line.checking, false, &held[..n]);
    if stop.at == 0 {
        return Rest {
            len: n,
            head: stop.look,
        };
    }
    let left = arrays::packed(&held[stop.at..n]);
    held.copy_from_slice(&left);
    Rest {
        len: n - stop.at,
        head: stop.look,
    }
}

// The reader that holds what is left of these bytes.
pub(crate) fn settle(line: Line, closed: bool, s: &[u8]) -> Reader
    requires { length s.now ≤ longest_frame }
    ensures { result ≡ settled_reader line closed s.now }
{
    let stop = place::first_stop(line.header, line.checking, closed, s);
    let held = arrays::packed(&s[stop.at..]);
    let len = s.len() - stop.at;
    Reader {
        line,
        held,
        len,
        // `&` and no `&&`: one equation of truth values (docs/PROVING.md, Loops).
        closed: closed & (0 < len),
        head: stop.look,
    }
}

// What stands behind the first k bytes held.
fn stop_behind(reader: Reader, k: usize) -> Stop
    requires { (k ≤ reader.len) × (reader.len ≤ longest_frame) }
    ensures { result ≡ stop_of (rules_for reader.line) reader.closed (take (reader.len - k) (drop k reader.held)) }
{
    // A local, since to lend a part of a reader copies all of it.
    let held = reader.held;
    place::first_stop(
        reader.line.header,
        reader.line.checking,
        reader.closed,
        &held[k..reader.len],
    )
}

// Lays what is left behind the first k bytes held.
pub(crate) fn settle_left(reader: Reader, k: usize, left: &mut [u8]) -> Rest
    requires { (k ≤ reader.len) × (reader.len ≤ longest_frame) × (left.old ≡ padded longest_frame []) }
    ensures { reader_with reader.line reader.closed result.len result.head left.new ≡ settled_reader reader.line reader.closed (take (reader.len - k) (drop k reader.held)) }
{
    if k == reader.len {
        return Rest {
            len: 0,
            head: Look::Wait,
        };
    }
    let stop = stop_behind(reader, k);
    let from = k + stop.at;
    arrays::put_held(reader, from, reader.len, left);
    Rest {
        len: reader.len - from,
        head: stop.look,
    }
}
