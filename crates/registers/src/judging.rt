// A run of registers that is to be written: whether it may be, and what it asks for besides.
ghost use Rattle.std.specs.Prelude.{◌≡◌, ◌+◌, length};
ghost use Rattle.registers.specs.Table.{writable};
ghost use Rattle.registers.specs.Run.{covers, all_writable, sets_clock, part_of_clock, unwritable_run, byte_for, clearing, wrong_setting, wrong_clock, wrong_value, drops_catch, clear_value};

use crate::{
    CLEAR_REGISTER, CLOCK_REGISTERS, LAST_CLOCK_REGISTER, RegisterAddress, Run, SET_REGISTER,
};
use std::ops::Range;

#[tactic(auto, unfolding(crate::specs::Table::writable, crate::specs::Table::is_clock))]
fn is_writable(register: usize) -> bool
    ensures { result ≡ writable register }
{
    matches!(
        register,
        0x01..=0x05 | 0x0B | SET_REGISTER..=LAST_CLOCK_REGISTER | CLEAR_REGISTER
    )
}

// A value that register EB takes.
#[tactic(auto, unfolding(crate::specs::Run::clearing))]
fn is_clearing(value: u8) -> bool
    ensures { result ≡ clearing value }
{
    (0x55..=0x5D).contains(&value)
}

// The bytes that would set the clock do not begin with 5A, or show no moment.
#[tactic(auto, unfolding(crate::specs::Run::wrong_setting))]
fn is_wrong_setting(bytes: &[u8]) -> bool
    ensures { result ≡ wrong_setting bytes.now }
{
    match bytes {
        [0x5A, moment @ ..] => clock::is_wrong(moment),
        _ => true,
    }
}

impl Run<'_> {
    // Its registers, by their addresses.
    fn registers(self) -> Range<usize>
        ensures { result ≡ record { start = self.entry.address.0; end = self.entry.address.0 + length self.entry.bytes.now } }
    {
        let first = usize::from(self.address.0);
        first..first + self.bytes.len()
    }

    #[tactic(auto, unfolding(crate::specs::Run::covers))]
    fn has(self, register: usize) -> bool
        ensures { result ≡ covers self.entry.address.0 (length self.entry.bytes.now) register }
    {
        self.registers().contains(&register)
    }

    fn is_writable(self) -> bool
        ensures { result ≡ all_writable self.entry.address.0 (length self.entry.bytes.now) }
    {
        self.registers().all(is_writable)
    }

    // The run is the clock's eight registers and no other.
    #[tactic(auto, unfolding(crate::specs::Run::sets_clock))]
    fn sets_clock(self) -> bool
        ensures { result ≡ sets_clock self.entry.address.0 (length self.entry.bytes.now) }
    {
        usize::from(self.address.0) == SET_REGISTER && self.bytes.len() == CLOCK_REGISTERS
    }

    // The run has some of the clock's registers, and is not just the eight.
    #[tactic(auto, unfolding(crate::specs::Run::part_of_clock, crate::specs::Run::touches_clock))]
    fn is_part_of_clock(self) -> bool
        ensures { result ≡ part_of_clock self.entry.address.0 (length self.entry.bytes.now) }
    {
        let Range { start, end } = self.registers();
        let touches = !self.bytes.is_empty() && start <= LAST_CLOCK_REGISTER && SET_REGISTER < end;
        touches && !self.sets_clock()
    }

    // The byte that the run gives to a register.
    #[tactic(auto, unfolding(crate::specs::Run::byte_for))]
    pub(crate) fn byte_for(self, register: usize) -> u8
        ensures { result ≡ byte_for self.entry.address.0 self.entry.bytes.now register }
    {
        wire::byte_at(
            self.bytes,
            register.saturating_sub(usize::from(self.address.0)),
        )
    }

    // The run would set the clock, and wrongly.
    #[tactic(auto, unfolding(crate::specs::Run::wrong_clock))]
    fn is_wrong_clock(self) -> bool
        ensures { result ≡ wrong_clock self.entry.address.0 self.entry.bytes.now }
    {
        self.sets_clock() && is_wrong_setting(self.bytes)
    }
}

// These bytes from the address on would touch a register that is not writable, half the page, or the clock without setting it.
#[tactic(auto, unfolding(crate::specs::Run::unwritable_run, crate::specs::Run::half_page))]
pub fn is_unwritable(address: RegisterAddress, bytes: &[u8]) -> bool
    ensures { result ≡ unwritable_run address.0 (length bytes.now) }
{
    let run = Run { address, bytes };
    !run.is_writable() || run.has(0x03) != run.has(0x04) || run.is_part_of_clock()
}

// A write of these bytes from the address on drops the catch, where it is done.
#[tactic(auto, unfolding(crate::specs::Run::drops_catch))]
pub fn drops_catch(address: RegisterAddress, bytes: &[u8]) -> bool
    ensures { result ≡ drops_catch address.0 bytes.now }
{
    Run { address, bytes }.has(0x03)
}

// The value that a write of these bytes from the address on gives to register EB; 00 where it gives none.
#[tactic(auto, unfolding(crate::specs::Run::clear_value))]
pub fn clear_value(address: RegisterAddress, bytes: &[u8]) -> u8
    ensures { result ≡ clear_value address.0 bytes.now }
{
    let run = Run { address, bytes };
    if run.has(CLEAR_REGISTER) {
        run.byte_for(CLEAR_REGISTER)
    } else {
        0
    }
}

// These bytes from the address on would set the backlight above 3F, a page that is not below P, EB to a value that it does not take, or the clock wrongly.
#[tactic(auto, unfolding(crate::specs::Run::wrong_value))]
pub fn is_wrong_value(address: RegisterAddress, bytes: &[u8], pages: u16) -> bool
    ensures { result ≡ wrong_value address.0 bytes.now pages }
{
    let run = Run { address, bytes };
    let page = wire::word(run.byte_for(0x03), run.byte_for(0x04));
    run.has(0x01) && 0x3F < run.byte_for(0x01)
        || run.has(0x03) && pages <= page
        || run.has(CLEAR_REGISTER) && !is_clearing(run.byte_for(CLEAR_REGISTER))
        || run.is_wrong_clock()
}
