// The lines that the trace itself prints.
ghost use Rattle.std.specs.Prelude.{◌≡◌, ◌≤◌, ◌<◌, length};
ghost use Rattle.wire.specs.Room.{lays};
ghost use Rattle.text.specs.Text.{line_text};
ghost use Rattle.telling.specs.Inner.{prints};
ghost use Rattle.telling.specs.Told.{least_text};
ghost use Rattle.trace.specs.State.{stopped};
ghost use Rattle.trace.specs.Inner.{named, last_line};

use crate::{Trace, TracePrinted};
use items::Stage;
use panel::{Start, StartError};
use text::Line;

// The last line of a trace whose start is answered so: the page, or what the start is refused with.
#[tactic(auto, unfolding(crate::specs::Inner::last_line, crate::specs::Inner::named))]
pub(crate) fn last_line(begun: Start) -> Line
    requires { named begun.answer < 256 }
    ensures { result ≡ last_line begun.answer begun.panel }
{
    match begun.answer {
        Ok(()) => Line::End(begun.panel.page()),
        Err(StartError::WrongSetup) => Line::Failed(11),
        Err(StartError::NotRecords) => Line::Failed(12),
        Err(StartError::WrongRecord(i)) => Line::WrongRecord(i as u8),
    }
}

// The trace fails with a line.
pub(crate) fn stop(trace: Trace, line: Line, room: &mut [u8]) -> TracePrinted
    requires { least_text ≤ length room.old }
    ensures { (result.trace ≡ stopped trace) × (lays result.count room.new ≡ prints (line_text line) room.old) }
{
    let count = text::put_line(line, room);
    TracePrinted {
        trace: Trace {
            stage: Stage::Over,
            ..trace
        },
        count,
    }
}
