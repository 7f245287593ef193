// The 256 register bytes of 01, "Registers", addressed by byte: what they are, their starts, and what each reads.
#![tactic(auto)]

ghost use Rattle.std.specs.Prelude.{◌≡◌, cond, ◌+◌, ltb};
ghost use Rattle.wire.specs.Addresses.{register_count};
ghost use Rattle.registers.specs.Table.{start_registers, register_at};

use wire::REGISTER_COUNT;

mod by_touch; // what a touch reads and sets
mod judging; // what is wrong with a run that is to be written, and what it asks for
mod laying; // a run laid over a room
mod storing; // a run written
mod timing; // the clock's registers

pub use judging::{clear_value, drops_catch, is_unwritable, is_wrong_value};
pub use laying::read;

// 02, §2: a write to it clears curves; `clear_register` in specs/.
const CLEAR_REGISTER: usize = 0xEB;

// 02, §6: the clock's eight registers: the one that is written 5A where the clock is set, the year's, the weekday's and the last; `set_register`,
// `year_register` and `weekday_register` in specs/.
const CLOCK_REGISTERS: usize = 8;

const SET_REGISTER: usize = 0x1F;

const YEAR_REGISTER: usize = 0x20;

const WEEKDAY_REGISTER: usize = 0x23;

const LAST_CLOCK_REGISTER: usize = 0x26;

// An address of a register. It cannot stand where a word's address is meant, nor the other way round.
#[derive(Clone, Copy)]
pub struct RegisterAddress(pub u8);

// The bytes are lent to what only reads registers: `read` promises an answer for a slice of every length, so it takes no `&Registers`.
#[derive(Clone, Copy)]
pub struct Registers {
    pub bytes: [u8; REGISTER_COUNT],
}

// What is to be written: these bytes from the address on. Inside this crate: the public functions take address and bytes apart, as
// docs/CONTRACTS.md names them.
#[derive(Clone, Copy)]
struct Run<'a> {
    address: RegisterAddress,
    bytes: &'a [u8],
}

impl RegisterAddress {
    // A run of n registers from here on passes the end.
    #[tactic(auto, using(std::proofs::lemmas::Bool::Decides::nat_tests))]
    pub fn passes_end(self, n: usize) -> bool
        ensures { result ≡ ltb register_count (self.0 + n) }
    {
        REGISTER_COUNT - usize::from(self.0) < n
    }
}

// A bit that a register shows where its choice is on.
fn shown(on: bool, bit: u8) -> u8
    ensures { result ≡ cond on bit 0 }
{
    if on { bit } else { 0 }
}

impl Registers {
    // The registers of a panel that has just been started.
    pub fn start(h1: u8, h2: u8, checking: bool, acknowledging: bool) -> Registers
        ensures { result ≡ start_registers h1 h2 checking acknowledging }
    {
        let mut bytes = [0u8; REGISTER_COUNT];
        bytes[0x00] = 0x10;
        bytes[0x01] = 0x3F;
        bytes[0x0B] = 0xFF;
        bytes[0x12] = shown(checking, 0x10);
        bytes[0x13] = h1;
        bytes[0x1A] = h2;
        bytes[0x1C] = shown(acknowledging, 0x08);
        bytes[0x21] = 0x01;
        bytes[0x22] = 0x01;
        bytes[0x23] = 0x06;
        Registers { bytes }
    }

    // What a register reads.
    #[tactic(auto, unfolding(crate::specs::Table::register_at))]
    pub fn at(self, address: RegisterAddress) -> u8
        ensures { result ≡ register_at self address.0 }
    {
        self.bytes[usize::from(address.0)]
    }
}
