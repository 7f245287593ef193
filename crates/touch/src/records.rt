// How a touch record stands in its bytes, and what can be asked of any record.
ghost use Rattle.std.specs.Prelude.{◌≡◌, ◌/◌, ◌<◌, Bool, length};
ghost use Rattle.touch.specs.declared.Record.{Record};
ghost use Rattle.touch.specs.Record.{area_at, step_fields, slider_fields, kind_of, record_of, no_next, slides, along};
ghost use Rattle.touch.specs.Table.{record_bytes, record_at, records_of, first_of};

use crate::{Area, END_PAGE, Kind, RECORD_BYTES, Record, SliderFields, StepFields};

// The area whose four numbers stand from a place on.
#[tactic(auto, unfolding(crate::specs::Record::area_at))]
fn area_at(bytes: &[u8], at: usize) -> Area
    requires { at < record_bytes }
    ensures { result ≡ area_at bytes.now at }
{
    Area {
        xs: wire::word_at(bytes, at),
        ys: wire::word_at(bytes, at + 2),
        xe: wire::word_at(bytes, at + 4),
        ye: wire::word_at(bytes, at + 6),
    }
}

#[tactic(auto, unfolding(crate::specs::Record::step_fields))]
fn step_fields(bytes: &[u8]) -> StepFields
    ensures { result ≡ step_fields bytes.now }
{
    StepFields {
        direction: wire::byte_at(bytes, 0x14),
        ending: wire::byte_at(bytes, 0x15),
        step: wire::word_at(bytes, 0x16),
        least: wire::word_at(bytes, 0x18),
        greatest: wire::word_at(bytes, 0x1A),
        once: wire::byte_at(bytes, 0x1C),
    }
}

#[tactic(auto, unfolding(crate::specs::Record::slider_fields))]
fn slider_fields(bytes: &[u8]) -> SliderFields
    ensures { result ≡ slider_fields bytes.now }
{
    SliderFields {
        again: area_at(bytes, 0x14),
        begin: wire::word_at(bytes, 0x1C),
        end: wire::word_at(bytes, 0x1E),
    }
}

#[tactic(auto, unfolding(crate::specs::Record::kind_of))]
fn kind_of(bytes: &[u8]) -> Kind
    ensures { result ≡ kind_of bytes.now }
{
    match wire::word_at(bytes, 0x0E) {
        0xFE05 => Kind::Key(wire::word_at(bytes, 0x14)),
        0xFE02 => Kind::Step(step_fields(bytes)),
        0xFE03 => Kind::Slider(slider_fields(bytes)),
        _ => Kind::Other,
    }
}

// The record that stands at the front of these bytes; bytes past the end count as 0.
#[tactic(auto, unfolding(crate::specs::Record::record_of))]
pub fn record_of(bytes: &[u8]) -> Record
    ensures { result ≡ record_of bytes.now }
{
    Record {
        page: wire::word_at(bytes, 0x00),
        area: area_at(bytes, 0x02),
        next: wire::word_at(bytes, 0x0A),
        kind: kind_of(bytes),
        fe: wire::byte_at(bytes, 0x10),
        word: wire::word_at(bytes, 0x11),
        mode: wire::byte_at(bytes, 0x13),
    }
}

// The record with this number in a table, from 0.
fn record_at(table: &[u8], i: usize) -> Record
    requires { i < length table.now / record_bytes }
    ensures { result ≡ record_at table.now i }
{
    let at = i * RECORD_BYTES;
    record_of(&table[at..at + RECORD_BYTES])
}

// The first record before a table's end that a test picks, with its number.
pub(crate) fn first_of<F: Fn(Record) -> bool>(table: &[u8], picks: F) -> Option<(usize, Record)>
    requires { F.IsAlwaysCallable picks }
    ensures { (test : Record → Bool) → ((r : Record) (b : Bool) → F.post picks r b → b ≡ test r) → result ≡ first_of test 0 (records_of table.now) }
{
    // By number, since the loop's invariant and the edit second_record_acts count records.
    for i in 0..table.len() / RECORD_BYTES {
        let r = record_at(table, i);
        if r.page == END_PAGE {
            return None;
        }
        if picks(r) {
            return Some((i, r));
        }
    }
    None
}

// Whether a record leads to no other page.
pub fn no_next(r: Record) -> bool
    ensures { result ≡ no_next r }
{
    wire::high_byte(r.next) == 0xFF
}

// Whether a record is caught once it acted.
pub fn is_slider(r: Record) -> bool
    ensures { result ≡ slides r }
{
    matches!(r.kind, Kind::Slider(_))
}

// Of the numbers across and down, the one of a slider's axis.
pub(crate) fn along(mode: u8, across: u16, down: u16) -> u16
    ensures { result ≡ along mode across down }
{
    if mode % 16 == 0 { across } else { down }
}
