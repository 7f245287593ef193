// An event: the panel is started where it was not, and then told of it. The curve area is not lent: what is said holds whatever that holds.
ghost use Rattle.std.specs.Prelude.{◌≡◌, List, ℕ, ◌≤◌, length};
ghost use Rattle.telling.specs.Told.{least_text};
ghost use Rattle.telling.specs.Memory.{remembering};
ghost use Rattle.telling.specs.Events.{event};
ghost use Rattle.trace.specs.Inner.{byte_printing, leaves_byte, event_printing, leaves_event, after_told};
ghost use Rattle.items.specs.Records.{table_bytes};
ghost use Rattle.trace.specs.State.{holds};
ghost use Rattle.trace.specs.Events.{started_by, event_done};

use crate::{Trace, TracePrinted, lines};
use items::{ITEM_BYTES, Stage};
use panel::{Panel, Start};
use telling::PanelPrinted;

impl Trace {
    // The panel with which an event or the end is answered: started now, unless it was.
    pub(crate) fn begin(self, part: &[u8]) -> Start
        ensures { result ≡ started_by self part.now }
    {
        if items::is_started(self.stage) {
            return Start {
                answer: Ok(()),
                panel: self.panel,
            };
        }
        Panel::start(self.setup, part)
    }
}

// The trace behind what was told of its panel.
pub fn after_told(trace: Trace, done: PanelPrinted) -> TracePrinted
    ensures { result ≡ after_told trace done }
{
    TracePrinted {
        trace: Trace {
            stage: Stage::Started,
            panel: done.panel,
            ..trace
        },
        count: done.count,
    }
}

// An event of a panel that is started.
fn started_event(
    trace: Trace,
    begun: Start,
    item: [u8; ITEM_BYTES],
    part: &[u8],
    words: &mut [u16],
    room: &mut [u8],
) -> TracePrinted
    requires { least_text ≤ length room.old }
    ensures { (curves : List ℕ) → leaves_event result (remembering words.new curves) room.new ≡ event_printing trace (event begun.panel part.now (remembering words.old curves) item) room.old }
{
    let done = telling::tell_event(begun.panel, item, part, words, room);
    after_told(trace, done)
}

// An event, the first of which starts the panel; where the start is refused, the trace fails.
pub(crate) fn any_event(
    trace: Trace,
    item: [u8; ITEM_BYTES],
    table: &[u8],
    words: &mut [u16],
    room: &mut [u8],
) -> TracePrinted
    requires { (table_bytes ≤ length table.now) × (least_text ≤ length room.old) }
    ensures { (curves : List ℕ) → leaves_byte result table.now (remembering words.new curves) room.new ≡ byte_printing (event_done (holds trace table.now (remembering words.old curves)) item) room.old }
{
    let part = &table[..items::table_length(trace.records)];
    let begun = trace.begin(part);
    match begun.answer {
        Ok(()) => started_event(trace, begun, item, part, words, room),
        Err(_) => lines::stop(trace, lines::last_line(begun), room),
    }
}
