// 01, "Contact and lift": what a contact that is not refused, and a lift, do to registers, words and the catch.
#![tactic(auto)]

ghost use Rattle.std.specs.Prelude.{◌≡◌};
ghost use Rattle.contact.specs.Contact.{touching, showing, catching, acting, pressed, dragging, held_down, touched, lifted};

use registers::Registers;
use touch::{Point, Record, Setup};
use words::WordAddress;

// What a touch reads and sets, beside the words.
#[derive(Clone, Copy)]
pub struct Pad {
    pub registers: Registers,
    // A copy of the record of the slider that is being dragged.
    pub catch: Option<Record>,
}

#[tactic(auto, unfolding(crate::specs::Contact::showing))]
fn show(r: Record, pad: Pad) -> Pad
    ensures { result ≡ showing r pad.registers pad.catch }
{
    if touch::no_next(r) {
        pad
    } else {
        Pad {
            registers: pad.registers.with_page(r.next),
            catch: None,
        }
    }
}

#[tactic(auto, unfolding(crate::specs::Contact::catching))]
fn catch_with(r: Record, catch: Option<Record>) -> Option<Record>
    ensures { result ≡ catching r catch }
{
    if touch::is_slider(r) { Some(r) } else { catch }
}

// Words are lent and setup is the caller's: a struct would only be taken apart again.
#[tactic(auto, unfolding(crate::specs::Contact::acting))]
fn act(
    setup: Setup,
    found: Option<(usize, Record)>,
    pad: Pad,
    words: &mut [u16],
    point: Point,
) -> Pad
    ensures { touching result words.new ≡ acting setup found pad.registers pad.catch words.old point.x point.y }
{
    match found {
        None => pad,
        Some((_, r)) => {
            // Twice, since `acting` and `dragging` each say their own word.
            let old = words::at(words, WordAddress(r.word));
            words::set(
                words,
                WordAddress(r.word),
                touch::acted(setup, r, old, point),
            );
            let catch = catch_with(r, pad.catch);
            show(r, Pad { catch, ..pad })
        }
    }
}

#[tactic(auto, unfolding(crate::specs::Contact::pressed))]
fn press(setup: Setup, pad: Pad, table: &[u8], words: &mut [u16], point: Point) -> Pad
    ensures { touching result words.new ≡ pressed setup pad table.now words.old point.x point.y }
{
    let found = touch::find(table, pad.registers.page(), point);
    let registers = pad.registers.with_status(0x01).with_place(point.x, point.y);
    act(setup, found, Pad { registers, ..pad }, words, point)
}

#[tactic(auto, unfolding(crate::specs::Contact::dragging))]
fn drag(setup: Setup, catch: Option<Record>, words: &mut [u16], point: Point)
    ensures { words.new ≡ dragging setup catch words.old point.x point.y }
{
    if let Some(r) = catch {
        let old = words::at(words, WordAddress(r.word));
        words::set(
            words,
            WordAddress(r.word),
            touch::dragged(setup, r, old, point),
        );
    }
}

#[tactic(auto, unfolding(crate::specs::Contact::held_down))]
fn hold_down(setup: Setup, pad: Pad, words: &mut [u16], point: Point) -> Pad
    ensures { touching result words.new ≡ held_down setup pad words.old point.x point.y }
{
    drag(setup, pad.catch, words, point);
    Pad {
        registers: pad.registers.with_status(0x03).with_place(point.x, point.y),
        ..pad
    }
}

// A contact on the screen of a panel set up so, with touch on and a good table.
#[tactic(auto, unfolding(crate::specs::Contact::touched))]
pub fn touch_down(setup: Setup, pad: Pad, table: &[u8], words: &mut [u16], point: Point) -> Pad
    ensures { touching result words.new ≡ touched setup pad table.now words.old point.x point.y }
{
    if pad.registers.is_down() {
        hold_down(setup, pad, words, point)
    } else {
        press(setup, pad, table, words, point)
    }
}

// A lift while down.
#[tactic(auto, unfolding(crate::specs::Contact::lifted))]
pub fn lift_up(pad: Pad) -> Pad
    ensures { result ≡ lifted pad }
{
    Pad {
        registers: pad.registers.with_status(0x02),
        catch: None,
    }
}
