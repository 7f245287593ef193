// 01, "Setup and touch table": what a setup may say, how a touch record stands in its bytes, which tables are good, which record
// a point finds, and what a key, a step or a slider stores. No panel.
#![tactic(auto)]

mod acting;
mod finding;
mod judging;
mod records;
mod setups;

pub use acting::{acted, dragged};
pub use finding::find;
pub use judging::{good_record, judge};
pub use records::{is_slider, no_next, record_of};
pub use setups::{acknowledging, checking, good_setup};

// "The table has up to 128 records of 32 bytes"; `most_records` and `record_bytes` in specs/.
pub const MOST_RECORDS: usize = 128;

pub const RECORD_BYTES: usize = 32;

// "A record with page FFFF ends it"
const END_PAGE: u16 = 0xFFFF;

#[derive(Clone, Copy)]
pub struct Setup {
    pub h1: u8,
    pub h2: u8,
    pub flags: u8,
    pub pages: u16,
    pub width: u16,
    pub height: u16,
}

// A place on the screen, from its upper left corner.
#[derive(Clone, Copy, Debug, PartialEq, Eq)]
pub struct Point {
    pub x: u16,
    pub y: u16,
}

// From the first point to the last, edges included.
#[derive(Clone, Copy, Debug, PartialEq, Eq)]
pub struct Area {
    pub xs: u16,
    pub ys: u16,
    pub xe: u16,
    pub ye: u16,
}

#[derive(Clone, Copy)]
pub struct StepFields {
    pub direction: u8,
    pub ending: u8,
    pub step: u16,
    pub least: u16,
    pub greatest: u16,
    pub once: u8,
}

#[derive(Clone, Copy)]
pub struct SliderFields {
    pub again: Area,
    pub begin: u16,
    pub end: u16,
}

// What the code of a record makes it, with the fields of that kind.
#[derive(Clone, Copy)]
pub enum Kind {
    Key(u16),
    Step(StepFields),
    Slider(SliderFields),
    Other,
}

#[derive(Clone, Copy)]
pub struct Record {
    pub page: u16,
    pub area: Area,
    pub next: u16,
    pub kind: Kind,
    pub fe: u8,
    pub word: u16,
    pub mode: u8,
}

// Why a table is not good.
#[derive(Clone, Copy, Debug, PartialEq, Eq)]
pub enum TableError {
    NotRecords,
    // The number of the first wrong record, from 0.
    Wrong(usize),
}
