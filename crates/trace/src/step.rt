// What one step does: a report, a run of line bytes, or one byte.
ghost use Rattle.std.specs.Prelude.{◌≡◌, ◌≤◌, length};
ghost use Rattle.telling.specs.Told.{least_text};
ghost use Rattle.telling.specs.Memory.{remembering};
ghost use Rattle.items.specs.Records.{table_bytes};
ghost use Rattle.trace.specs.State.{lent_to};
ghost use Rattle.trace.specs.Inner.{step_printing, leaves_step, taking_so, found_step};

use crate::{AtFront, Found, LEAST_TEXT, TABLE_BYTES, Took, TracePrinted, byte, report};
use curves::CURVE_WORDS;
use wire::WORD_COUNT;

// Whether table, words, curve area and room are as long as they must be.
pub fn is_lent(table: usize, words: usize, curves: usize, room: usize) -> bool
    ensures { result ≡ lent_to table words curves room }
{
    (TABLE_BYTES <= table) & (words == WORD_COUNT) & (curves == CURVE_WORDS) & (LEAST_TEXT <= room)
}

// What a step took that printed this.
fn taking(done: TracePrinted, used: usize) -> Took
    ensures { result ≡ taking_so done used }
{
    Took {
        trace: done.trace,
        used,
        count: done.count,
    }
}

// Does what was found: hands over a report that waits, lets a run be, or takes a byte.
pub(crate) fn take_step(
    found: Found,
    table: &mut [u8],
    words: &mut [u16],
    curves: &mut [u16],
    room: &mut [u8],
) -> Took
    requires { (table_bytes ≤ length table.old) × (least_text ≤ length room.old) }
    ensures { leaves_step result table.new (remembering words.new curves.new) room.new ≡ step_printing (found_step table.old (remembering words.old curves.old) found) room.old }
{
    let trace = found.trace;
    match found.front {
        AtFront::Waits => taking(report::hand_over(trace, words, curves, room), 0),
        AtFront::Ran(used) => Took {
            trace,
            used,
            count: 0,
        },
        AtFront::First(b) => taking(byte::take_byte(trace, b, table, words, room), 1),
    }
}
