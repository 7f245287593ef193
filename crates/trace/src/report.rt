// A report that waits.
ghost use Rattle.std.specs.Prelude.{◌≡◌, ◌≤◌, length};
ghost use Rattle.telling.specs.Told.{least_text};
ghost use Rattle.telling.specs.Memory.{remembering};
ghost use Rattle.telling.specs.Events.{asked_once};
ghost use Rattle.trace.specs.Inner.{event_printing, leaves_event};

use crate::{Trace, TracePrinted, event};

// Asks for one report of the trace's panel.
pub(crate) fn hand_over(
    trace: Trace,
    words: &mut [u16],
    curves: &mut [u16],
    room: &mut [u8],
) -> TracePrinted
    requires { least_text ≤ length room.old }
    ensures { leaves_event result (remembering words.new curves.new) room.new ≡ event_printing trace (asked_once trace.panel (remembering words.old curves.old)) room.old }
{
    let done = telling::tell_report(trace.panel, words, curves, room);
    event::after_told(trace, done)
}
