// What a run of registers reads, laid over a room.
ghost use Rattle.std.specs.Prelude.{◌≡◌, ◌&&◌, ◌+◌, ◌≤◌, leb, length};
ghost use Rattle.wire.specs.Room.{lays, laid};
ghost use Rattle.wire.specs.Addresses.{register_count};
ghost use Rattle.registers.specs.Table.{holding, register_run};

use crate::RegisterAddress;

// Lays what the registers lent read, from a on, over the whole room.
fn read_run(registers: &[u8], a: usize, room: &mut [u8])
    requires { a + length room.old ≤ register_count }
    ensures { room.new ≡ register_run (holding registers.now) a (length room.old) }
{
    // Byte by byte and no copy: a slice shorter than 256 reads 0 past its end.
    for (i, place) in room.iter_mut().enumerate() {
        *place = wire::byte_at(registers, a + i);
    }
}

// Lays what n of the registers lent read, from the address on, over the room's front; answers n. A run that passes the end, or that the
// room does not hold, leaves the room and answers 0.
pub fn read(registers: &[u8], address: RegisterAddress, n: u8, room: &mut [u8]) -> usize
    ensures { lays result room.new ≡ laid (leb (address.0 + n) register_count && leb n (length room.old)) (register_run (holding registers.now) address.0 n) room.old }
{
    let n = usize::from(n);
    if address.passes_end(n) || room.len() < n {
        return 0;
    }
    read_run(registers, usize::from(address.0), &mut room[..n]);
    n
}
