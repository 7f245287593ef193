// A run of registers written.
ghost use Rattle.std.specs.Prelude.{◌≡◌, ◌+◌, ◌≤◌, length};
ghost use Rattle.wire.specs.Room.{laid_at};
ghost use Rattle.wire.specs.Addresses.{register_count};
ghost use Rattle.registers.specs.Table.{holding};
ghost use Rattle.registers.specs.Run.{weekday_for, read_as, registers_after};

use crate::{CLEAR_REGISTER, RegisterAddress, Registers, Run, SET_REGISTER, WEEKDAY_REGISTER};

// What a register reads once the byte has been written to it.
#[tactic(auto, unfolding(crate::specs::Run::read_as))]
fn read_as(weekday: u8, register: usize, b: u8) -> u8
    ensures { result ≡ read_as weekday register b }
{
    match register {
        CLEAR_REGISTER | SET_REGISTER => 0,
        WEEKDAY_REGISTER => weekday,
        _ => b,
    }
}

impl Run<'_> {
    // The weekday of the date that the run gives to the clock.
    #[tactic(auto, unfolding(crate::specs::Run::weekday_for))]
    fn weekday(self) -> u8
        ensures { result ≡ weekday_for self.entry.address.0 self.entry.bytes.now }
    {
        let date = clock::date_in(
            self.byte_for(0x20),
            self.byte_for(0x21),
            self.byte_for(0x22),
        );
        date.weekday()
    }
}

impl Registers {
    // With these bytes from a place on, as they are.
    #[tactic(auto, unfolding(wire::specs::Room::laid_at))]
    pub(crate) fn with_run(mut self, at: usize, bytes: &[u8]) -> Registers
        requires { at + length bytes.now ≤ register_count }
        ensures { result ≡ holding (laid_at at bytes.now self.bytes) }
    {
        self.bytes[at..at + bytes.len()].copy_from_slice(bytes);
        self
    }

    // With these bytes written from the address on; a run that passes the end leaves all as it stood.
    pub fn write(mut self, address: RegisterAddress, bytes: &[u8]) -> Registers
        ensures { result ≡ registers_after self address.0 bytes.now }
    {
        if address.passes_end(bytes.len()) {
            return self;
        }
        let weekday = Run { address, bytes }.weekday();
        let first = usize::from(address.0);
        // By index, as the check knows it.
        for (i, b) in bytes.iter().enumerate() {
            self.bytes[first + i] = read_as(weekday, first + i, *b);
        }
        self
    }
}
