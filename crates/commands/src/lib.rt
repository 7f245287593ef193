// Commands 0x80 to 0x83 of 01, and 0x84 of 02, §2: each is judged by its numbers in order, then done.
#![tactic(auto)]

use frame::Header;

mod laying; // a reply laid
mod on_curves; // 0x84
mod on_registers; // 0x80 and 0x81
mod on_words; // 0x82 and 0x83
mod outcomes; // what an outcome says, and 7
mod performing; // which command it is

pub use on_curves::counts_left;
pub use on_registers::registers_left;
pub use performing::perform;

// The commands' bytes, which a read's reply has too.
const WRITE_REGISTERS: u8 = 0x80;

const READ_REGISTERS: u8 = 0x81;

const WRITE_WORDS: u8 = 0x82;

const READ_WORDS: u8 = 0x83;

const ADD_CURVES: u8 = 0x84;

// What setup fixes for every command.
#[derive(Clone, Copy)]
pub struct Fixed {
    pub header: Header,
    pub checking: bool,
    pub pages: u16,
}

// Why a command is refused; number_of_outcome in specs/ gives 01's number for each.
#[derive(Clone, Copy, Debug, PartialEq, Eq)]
pub enum Refusal {
    UnknownCommand,
    WrongData,
    PastEnd,
    Unwritable,
    WrongValue,
    ReplyTooLong,
}

// What a command answers, what it wants done to the panel, and how long a reply it has laid. Four flags, since one write may ask for two things
// and `registers_by` and the theorems of specs/ go by each.
#[derive(Clone, Copy)]
pub struct Performed {
    pub outcome: Result<(), Refusal>,
    // Its bytes are to be written into the registers.
    pub writes: bool,
    // The catch is to be dropped.
    pub drops: bool,
    // Its numbers are to be added to the curves.
    pub adds: bool,
    // Its words are to be noted in the watch list.
    pub notes: bool,
    pub replied: usize,
}
