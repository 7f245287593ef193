// The end of the input.
ghost use Rattle.std.specs.Prelude.{◌≡◌, ◌≤◌, length};
ghost use Rattle.wire.specs.Room.{lays};
ghost use Rattle.telling.specs.Inner.{prints};
ghost use Rattle.telling.specs.Told.{least_text};
ghost use Rattle.trace.specs.Inner.{page_or_refusal, last_of};
ghost use Rattle.trace.specs.Output.{end_text};
ghost use Rattle.items.specs.Records.{table_bytes};

use crate::{Trace, lines};
use items::Stage;
use text::Line;

// The last line of a trace that had a setup: the page, or what the start is refused with.
fn page_or_refusal(trace: Trace, table: &[u8]) -> Line
    requires { table_bytes ≤ length table.now }
    ensures { result ≡ page_or_refusal trace table.now }
{
    lines::last_line(trace.begin(&table[..items::table_length(trace.records)]))
}

// The last line of any trace; one that has failed has none.
fn find(trace: Trace, table: &[u8]) -> Option<Line>
    requires { table_bytes ≤ length table.now }
    ensures { result ≡ last_of trace table.now }
{
    if trace.have == 0 {
        return match trace.stage {
            Stage::Bare => Some(Line::Failed(15)),
            Stage::Over => None,
            _ => Some(page_or_refusal(trace, table)),
        };
    }
    Some(Line::Failed(15))
}

// Writes it.
pub(crate) fn print_end(trace: Trace, table: &[u8], room: &mut [u8]) -> usize
    requires { (table_bytes ≤ length table.now) × (least_text ≤ length room.old) }
    ensures { lays result room.new ≡ prints (end_text trace table.now) room.old }
{
    match find(trace, table) {
        None => 0,
        Some(line) => text::put_line(line, room),
    }
}
