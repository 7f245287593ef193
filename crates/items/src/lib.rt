// 01, "The trace program": the items of a trace, "one byte of kind, then a body whose length the kind fixes", and what may come when.
#![tactic(auto)]

use touch::{MOST_RECORDS, RECORD_BYTES};

mod decoding;
mod item;
mod records;
mod runs;
mod stages;

pub use decoding::body_length;
pub use item::{kind_of, no_item, setup_in, with_byte};
pub use records::{one_more, table_length};
pub use runs::gather_run;
pub use stages::{is_over, is_started, may_come};

// The longest item of a trace, its kind and a touch record behind it; `item_bytes` in specs/.
pub const ITEM_BYTES: usize = RECORD_BYTES + 1;

// "table longer than 128 records": one record more is kept, and that shows it; `kept_records` in specs/.
pub const KEPT_RECORDS: usize = MOST_RECORDS + 1;

// "one byte of kind": 01's six and 02's second.
#[derive(Clone, Copy, Debug, PartialEq, Eq)]
pub enum Kind {
    Setup,
    LineByte,
    Mark,
    Contact,
    Lift,
    Record,
    Second,
}

// A byte that is the kind of no item.
#[derive(Clone, Copy, Debug, PartialEq, Eq)]
pub struct UnknownKind(pub u8);

// How far the input has come: nothing yet; setup and records; events; after an X.
#[derive(Clone, Copy, Debug, PartialEq, Eq)]
pub enum Stage {
    Bare,
    Ready,
    Started,
    Over,
}
