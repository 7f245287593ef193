// One byte of the input, and the item that is whole with it. The curve area is not lent: what is said holds whatever that holds.
ghost use Rattle.std.specs.Prelude.{◌≡◌, List, ℕ, ◌≤◌, length};
ghost use Rattle.telling.specs.Told.{least_text};
ghost use Rattle.telling.specs.Memory.{remembering};
ghost use Rattle.trace.specs.Inner.{byte_printing, leaves_byte, byte_judged, growing, judges, whole_judged};
ghost use Rattle.trace.specs.declared.Comes.TheVariants.{Happens};
ghost use Rattle.items.specs.Records.{table_bytes};
ghost use Rattle.trace.specs.State.{holds};
ghost use Rattle.trace.specs.Events.{took_byte};

use crate::{Comes, Judged, Trace, TracePrinted, event, item, lines, records};
use items::{ITEM_BYTES, Kind};
use text::Line;

// An event that is whole.
fn happens(trace: Trace, item: [u8; ITEM_BYTES]) -> Judged
    ensures { result ≡ judges (Happens item) trace }
{
    Judged {
        comes: Comes::Happens(item),
        trace,
    }
}

// What an item that is whole comes to.
pub fn whole(trace: Trace, item: [u8; ITEM_BYTES]) -> Judged
    ensures { result ≡ whole_judged trace item }
{
    let Ok(kind) = Kind::try_from(items::kind_of(item)) else {
        return happens(trace, item);
    };
    match kind {
        Kind::Setup => item::quiet(trace.with_setup(item)),
        Kind::Record => Judged {
            comes: Comes::Met(item),
            trace,
        },
        _ => happens(trace, item),
    }
}

// What an item comes to that has one byte more.
pub fn grow(trace: Trace, item: [u8; ITEM_BYTES]) -> Judged
    ensures { result ≡ growing trace item }
{
    if items::body_length(items::kind_of(item)) <= trace.have {
        return whole(trace.between(), item);
    }
    item::quiet(trace.gather(item, trace.have + 1))
}

// What one byte comes to.
pub fn judge(trace: Trace, b: u8) -> Judged
    ensures { result ≡ byte_judged trace b }
{
    if items::is_over(trace.stage) {
        return item::quiet(trace);
    }
    if (trace.have == 0) & !items::may_come(trace.stage, b) {
        return Judged {
            comes: Comes::Wrong,
            trace,
        };
    }
    grow(trace, items::with_byte(trace.item, trace.have, b))
}

// One byte of the input.
pub(crate) fn take_byte(
    trace: Trace,
    b: u8,
    table: &mut [u8],
    words: &mut [u16],
    room: &mut [u8],
) -> TracePrinted
    requires { (table_bytes ≤ length table.old) × (least_text ≤ length room.old) }
    ensures { (curves : List ℕ) → leaves_byte result table.new (remembering words.new curves) room.new ≡ byte_printing (took_byte (holds trace table.old (remembering words.old curves)) b) room.old }
{
    let judged = judge(trace, b);
    let trace = judged.trace;
    match judged.comes {
        Comes::Quiet => TracePrinted { trace, count: 0 },
        Comes::Wrong => lines::stop(trace, Line::Failed(15), room),
        Comes::Met(item) => records::met(trace, item, table),
        Comes::Happens(item) => event::any_event(trace, item, table, words, room),
    }
}
