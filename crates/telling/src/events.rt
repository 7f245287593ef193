// What an event does to the panel, and its line. No event is lent the curve area: what is said of one holds whatever that holds.
ghost use Rattle.std.specs.Prelude.{◌≡◌, List, ℕ, ◌≤◌, length};
ghost use Rattle.wire.specs.Room.{lays};
ghost use Rattle.panel.specs.Numbers.{lift_number};
ghost use Rattle.panel.specs.Inputs.{fed_byte, fed_mark, fed_second};
ghost use Rattle.panel.specs.Contacts.{lifting};
ghost use Rattle.panel.specs.Contacts.{contact_at};
ghost use Rattle.telling.specs.Inner.{prints, quietly};
ghost use Rattle.telling.specs.Told.{leaves_panel, panel_printing, least_text};
ghost use Rattle.telling.specs.Events.{touch_text, contact_told, event};
ghost use Rattle.telling.specs.Memory.{remembering};

use crate::{PanelPrinted, lines, numbers};
use frame::LEAST_ROOM;
use items::{ITEM_BYTES, Kind};
use panel::Panel;
use text::Line;
use touch::Point;
use watch::WatchList;

fn do_byte(panel: Panel, b: u8) -> Panel
    ensures { result ≡ (fed_byte panel b).panel }
{
    panel.give_byte(b).panel
}

fn do_mark(panel: Panel) -> Panel
    ensures { result ≡ (fed_mark panel).panel }
{
    panel.give_mark().panel
}

fn do_second(panel: Panel) -> Panel
    ensures { result ≡ (fed_second panel).panel }
{
    panel.give_second().panel
}

// A contact is lent a reply room and no watched words, so that nothing is written there. The list of none is made here and where a report is asked for: what
// it borrows cannot be handed out of a function.
fn do_contact(
    panel: Panel,
    table: &[u8],
    words: &mut [u16],
    point: Point,
    room: &mut [u8],
) -> PanelPrinted
    requires { least_text ≤ length room.old }
    ensures { (curves : List ℕ) → leaves_panel result (remembering words.new curves) room.new ≡ panel_printing (contact_told panel (contact_at table.now point.x point.y) (remembering words.old curves)) room.old }
{
    let mut reply = wire::zeros::<LEAST_ROOM>();
    let mut none = [0u16; 0];
    let mut list = WatchList {
        addresses: &[],
        uses: &[],
        values: &mut none,
    };
    let done = panel.contact(table, words, &mut reply, &mut list, point);
    let count = lines::print_line(Line::Touch(numbers::contact_number(done.answer)), room);
    PanelPrinted {
        panel: done.panel,
        count,
    }
}

fn do_lift(panel: Panel, room: &mut [u8]) -> PanelPrinted
    requires { least_text ≤ length room.old }
    ensures { (result.panel ≡ (lifting panel).panel) × (lays result.count room.new ≡ prints (touch_text (lift_number (lifting panel).answer)) room.old) }
{
    let done = panel.lift();
    let count = lines::print_line(Line::Touch(numbers::lift_number(done.answer)), room);
    PanelPrinted {
        panel: done.panel,
        count,
    }
}

// An event that has no line.
fn quiet(panel: Panel) -> PanelPrinted
    ensures { result ≡ quietly panel }
{
    PanelPrinted { panel, count: 0 }
}

pub(crate) fn do_event(
    panel: Panel,
    item: [u8; ITEM_BYTES],
    table: &[u8],
    words: &mut [u16],
    room: &mut [u8],
) -> PanelPrinted
    requires { least_text ≤ length room.old }
    ensures { (curves : List ℕ) → leaves_panel result (remembering words.new curves) room.new ≡ panel_printing (event panel table.now (remembering words.old curves) item) room.old }
{
    let Ok(kind) = Kind::try_from(item[0]) else {
        return do_lift(panel, room);
    };
    match kind {
        Kind::LineByte => quiet(do_byte(panel, item[1])),
        Kind::Mark => quiet(do_mark(panel)),
        Kind::Contact => {
            let point = Point {
                x: wire::word_at(&item, 1),
                y: wire::word_at(&item, 3),
            };
            do_contact(panel, table, words, point, room)
        }
        Kind::Second => quiet(do_second(panel)),
        _ => do_lift(panel, room),
    }
}
