// The panel of 01: start, byte, mark, second, report, contact, lift. A panel is a value: a method takes it and hands back the next one.
#![tactic(auto)]

use commands::{Performed, Refusal};
use curves::Counts;
use frame::MOST_PAYLOAD;
use line::{Reader, Waiting};
use registers::Registers;
use touch::{Record, Setup};

mod asking; // asking for a report
mod giving; // line bytes, quiet marks and seconds
mod numbers; // 01's number of each refusal
mod showing; // what the display board reads
mod starting; // starting a panel
mod touching; // contact and lift
mod watching; // the watched words

#[derive(Clone, Copy)]
pub struct Panel {
    setup: Setup,
    registers: Registers,
    // The slider that is being dragged, as a copy of its record.
    catch: Option<Record>,
    counts: Counts,
    reader: Reader,
}

// Why a start is refused. Flat, as the other errors: one variant for each of 01's numbers.
#[derive(Clone, Copy, Debug, PartialEq, Eq)]
pub enum StartError {
    WrongSetup,
    NotRecords,
    // The number of the first wrong record, from 0.
    WrongRecord(usize),
}

// Where the start is refused there is no panel: what stands beside the answer takes nothing and hands nothing over.
#[derive(Clone, Copy)]
pub struct Start {
    pub answer: Result<(), StartError>,
    pub panel: Panel,
}

#[derive(Clone, Copy)]
pub struct Fed {
    pub answer: Result<(), Waiting>,
    pub panel: Panel,
}

// How many of the bytes were taken.
#[derive(Clone, Copy)]
pub struct FedBytes {
    pub used: usize,
    pub panel: Panel,
}

// Why no report is handed over: it still waits.
#[derive(Clone, Copy, Debug, PartialEq, Eq)]
pub enum LentError {
    // Words, curve area or room are not what they must be.
    NotLent,
    // The watch list is wrong.
    WrongList,
}

// A report as it is handed over.
#[derive(Clone, Copy, Debug, PartialEq, Eq)]
pub enum Handed {
    // The command, and how long an acknowledgement was written.
    BadCheck(u8, usize),
    Accepted {
        command: u8,
        // How much data there is.
        count: usize,
        outcome: Result<(), Refusal>,
        // How long an acknowledgement and how long a reply were written.
        acknowledged: usize,
        replied: usize,
    },
}

// The data of an accepted frame stands beside the report, zeros behind it.
#[derive(Clone, Copy)]
pub struct Reported {
    pub handed: Result<Option<Handed>, LentError>,
    pub payload: [u8; MOST_PAYLOAD],
    pub panel: Panel,
}

// Why a contact is refused.
#[derive(Clone, Copy, Debug, PartialEq, Eq)]
pub enum ContactError {
    NotLent,
    // The watch list is wrong.
    WrongList,
    Waits,
    NotRecords,
    // The number of the first wrong record, from 0.
    WrongRecord(usize),
    TouchOff,
    OffScreen,
}

#[derive(Clone, Copy)]
pub struct Contacted {
    pub answer: Result<(), ContactError>,
    // How long an unasked reply was written; beside the answer, since `contact_said` takes both.
    pub written: usize,
    pub panel: Panel,
}

// Why a lift is refused.
#[derive(Clone, Copy, Debug, PartialEq, Eq)]
pub enum LiftError {
    Waits,
    IsUp,
}

#[derive(Clone, Copy)]
pub struct Lifted {
    pub answer: Result<(), LiftError>,
    pub panel: Panel,
}

// What an accepted frame has done, and how long its acknowledgement is.
#[derive(Clone, Copy)]
struct Effected {
    performed: Performed,
    acknowledged: usize,
}

// The flags stand here once more, since a bad check and no report have them too, and no `Performed`. What is handed over; whether the frame's data is to be written into the registers; whether the catch is to be dropped; whether the data is to be
// added to the curves; whether its words are to be noted in the watch list.
#[derive(Clone, Copy)]
struct HandedOver {
    handed: Option<Handed>,
    writes: bool,
    drops: bool,
    adds: bool,
    notes: bool,
}
