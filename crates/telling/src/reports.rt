// A report that is asked for, and its lines.
ghost use Rattle.std.specs.Prelude.{◌≡◌, ◌≤◌, length};
ghost use Rattle.telling.specs.Told.{leaves_panel, panel_printing, least_text};
ghost use Rattle.telling.specs.Events.{asked_once};
ghost use Rattle.telling.specs.Memory.{remembering};

use crate::{PanelPrinted, lines};
use frame::LEAST_ROOM;
use panel::Panel;
use watch::WatchList;

// Asks for one report and prints it. No words are watched.
pub(crate) fn ask_once(
    panel: Panel,
    words: &mut [u16],
    curves: &mut [u16],
    room: &mut [u8],
) -> PanelPrinted
    requires { least_text ≤ length room.old }
    ensures { leaves_panel result (remembering words.new curves.new) room.new ≡ panel_printing (asked_once panel (remembering words.old curves.old)) room.old }
{
    let mut reply = wire::zeros::<LEAST_ROOM>();
    let mut none = [0u16; 0];
    let mut list = WatchList {
        addresses: &[],
        uses: &[],
        values: &mut none,
    };
    let done = panel.report(words, curves, &mut reply, &mut list);
    let count = lines::print_report(done.handed, &reply, room);
    PanelPrinted {
        panel: done.panel,
        count,
    }
}
