// The line reader of 01, "Reading the line": bytes and quiet marks are given, reports are asked for.
// A reader is a value: a method takes it and hands back the next one.
#![tactic(auto)]

// Reader: new, none, is_waiting, give_byte, give_bytes, give_mark. Waiting: number.
mod inputs;
// Reader: ask.
mod ask;
// Many bytes at once, in place.
mod feed;
// Going past all that is passed over.
mod settle;
// What stands at the first byte held.
mod head;
// Bytes at the front of an array, zeros behind them.
mod arrays;

use frame::{Header, LONGEST_FRAME, MOST_PAYLOAD};
use place::Look;

// What is fixed at setup.
#[derive(Clone, Copy)]
pub struct Line {
    pub header: Header,
    pub checking: bool,
}

// No heap: an array and a count; the promises speak of the whole array, zeros behind the bytes.
// The bytes held stand at the front of the array; `closed` says whether a mark has closed their stretch, `head` what stands at the first.
#[derive(Clone, Copy)]
pub struct Reader {
    line: Line,
    held: [u8; LONGEST_FRAME],
    len: usize,
    closed: bool,
    head: Look,
}

// Why an input is not taken.
#[derive(Clone, Copy, Debug, PartialEq, Eq)]
pub enum Waiting {
    // A report waits, and is to be asked for first.
    ReportWaits,
}

#[derive(Clone, Copy)]
pub struct Given {
    pub answer: Result<(), Waiting>,
    pub reader: Reader,
}

// How many of the bytes were taken.
#[derive(Clone, Copy)]
pub struct Gave {
    pub used: usize,
    pub reader: Reader,
}

// What a frame is reported as. The data of an accepted one stands beside the report.
#[derive(Clone, Copy)]
pub enum Report {
    Accepted { command: u8, len: usize },
    BadCheck(u8),
}

// No heap: an array and a count; the promises speak of the whole array, zeros behind the bytes.
#[derive(Clone, Copy)]
pub struct Asked {
    pub report: Option<Report>,
    pub payload: [u8; MOST_PAYLOAD],
    pub reader: Reader,
}

// The structs below are what the modules hand each other.

// How many bytes are left once all that is passed over has been, and what stands at the first of them.
#[derive(Clone, Copy)]
struct Rest {
    len: usize,
    head: Look,
}

// What is left, and how many bytes must be held before more is decided.
#[derive(Clone, Copy)]
struct Step {
    rest: Rest,
    need: usize,
}

// What an ask answers and leaves, but for its arrays.
#[derive(Clone, Copy)]
struct Handover {
    report: Option<Report>,
    closed: bool,
    rest: Rest,
}

// How many bytes were taken, and what is left then.
#[derive(Clone, Copy)]
struct Fed {
    used: usize,
    rest: Rest,
}
