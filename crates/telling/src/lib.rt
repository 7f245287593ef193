// What 01's trace program prints of an event or a report of a panel: the panel goes on, and its lines are written into a lent room.
#![tactic(auto)]

ghost use Rattle.std.specs.Prelude.{◌≡◌, List, ℕ};
ghost use Rattle.telling.specs.Told.{leaves_panel, printed_in};
ghost use Rattle.telling.specs.Events.{event, asked_once};
ghost use Rattle.telling.specs.Memory.{remembering};

use items::ITEM_BYTES;
use panel::Panel;

mod events;
mod lines;
mod numbers;
mod reports;

// Room for the lines of any report; `least_text` in specs/.
pub const LEAST_TEXT: usize = 1024;

// The panel as it goes on, and how many bytes of text were written.
#[derive(Clone, Copy)]
pub struct PanelPrinted {
    pub panel: Panel,
    pub count: usize,
}

// Does an event, its kind first in the item, and prints its line; with room below `LEAST_TEXT` nothing is done. The curve area is left, whatever it holds.
pub fn tell_event(
    panel: Panel,
    item: [u8; ITEM_BYTES],
    table: &[u8],
    words: &mut [u16],
    room: &mut [u8],
) -> PanelPrinted
    ensures { (curves : List ℕ) → leaves_panel result (remembering words.new curves) room.new ≡ printed_in (event panel table.now (remembering words.old curves) item) panel (remembering words.old curves) room.old }
{
    if room.len() < LEAST_TEXT {
        return PanelPrinted { panel, count: 0 };
    }
    events::do_event(panel, item, table, words, room)
}

// Asks for one report and prints it; with room below `LEAST_TEXT` nothing is done.
pub fn tell_report(
    panel: Panel,
    words: &mut [u16],
    curves: &mut [u16],
    room: &mut [u8],
) -> PanelPrinted
    ensures { leaves_panel result (remembering words.new curves.new) room.new ≡ printed_in (asked_once panel (remembering words.old curves.old)) panel (remembering words.old curves.old) room.old }
{
    if room.len() < LEAST_TEXT {
        return PanelPrinted { panel, count: 0 };
    }
    reports::ask_once(panel, words, curves, room)
}
