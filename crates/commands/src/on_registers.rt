// 0x80 and 0x81: write and read registers.
ghost use Rattle.std.specs.Prelude.{◌≡◌, ◌+◌, ◌≤◌, drop, IfOk};
ghost use Rattle.wire.specs.ByteOrder.{byte_at};
ghost use Rattle.wire.specs.Addresses.{register_count};
ghost use Rattle.frame.specs.Frame.{most_data};
ghost use Rattle.registers.specs.Table.{holding};
ghost use Rattle.commands.specs.Outcome.{write_registers_outcome, read_registers_outcome};
ghost use Rattle.commands.specs.Inner.{outcome_of};
ghost use Rattle.commands.specs.Effect.{registers_left, registers_writing, replies, registers_replying};

use crate::{Fixed, Performed, READ_REGISTERS, Refusal, laying, outcomes};
use registers::{RegisterAddress, Registers};

// Judges a write by 3 to 6 in turn; hands on its address and its bytes.
#[tactic(auto, unfolding(crate::specs::Outcome::write_registers_outcome))]
fn judge_write(pages: u16, content: &[u8]) -> Result<(RegisterAddress, &[u8]), Refusal>
    ensures outcome { outcome_of result ≡ write_registers_outcome pages content.now }
    ensures parts { IfOk result (λ (a, b). (a.0 ≡ byte_at content.now 0) × (b.now ≡ drop 1 content.now)) }
{
    let [address, bytes @ ..] = content else {
        return Err(Refusal::WrongData);
    };
    if bytes.is_empty() {
        return Err(Refusal::WrongData);
    }
    let address = RegisterAddress(*address);
    if address.passes_end(bytes.len()) {
        return Err(Refusal::PastEnd);
    }
    if registers::is_unwritable(address, bytes) {
        return Err(Refusal::Unwritable);
    }
    if registers::is_wrong_value(address, bytes, pages) {
        return Err(Refusal::WrongValue);
    }
    Ok((address, bytes))
}

// Judges a read by 3, 4 and 7 in turn; hands on its address and its count, which the registers and a frame hold.
#[tactic(auto, unfolding(crate::specs::Outcome::read_registers_outcome))]
fn judge_read(checking: bool, content: &[u8]) -> Result<(RegisterAddress, u8), Refusal>
    ensures outcome { outcome_of result ≡ read_registers_outcome checking content.now }
    ensures parts { IfOk result (λ (a, n). (a.0 ≡ byte_at content.now 0) × (n ≡ byte_at content.now 1)) }
    ensures fits { IfOk result (λ (a, n). (a.0 + n ≤ register_count) × (2 + n ≤ most_data checking)) }
{
    let [address, n] = content else {
        return Err(Refusal::WrongData);
    };
    let address = RegisterAddress(*address);
    let count = usize::from(*n);
    if address.passes_end(count) {
        return Err(Refusal::PastEnd);
    }
    outcomes::fits_reply(checking, 2 + count)?;
    Ok((address, *n))
}

// Judges a write. One that is done asks for its bytes to be written, which `registers_left` does.
#[tactic(auto, unfolding(crate::specs::Effect::registers_writing, crate::specs::Effect::catch_dropped))]
pub fn write(pages: u16, content: &[u8]) -> Performed
    ensures { result ≡ registers_writing pages content.now }
{
    match judge_write(pages, content) {
        Ok((address, bytes)) => Performed {
            writes: true,
            drops: registers::drops_catch(address, bytes),
            ..outcomes::answer(Ok(()), 0)
        },
        Err(refusal) => outcomes::answer(Err(refusal), 0),
    }
}

// The registers as a write with this data leaves them, where it is done.
#[tactic(auto, unfolding(crate::specs::Effect::registers_left))]
pub fn registers_left(registers: Registers, content: &[u8]) -> Registers
    ensures { result ≡ registers_left registers content.now }
{
    let [address, bytes @ ..] = content else {
        return registers;
    };
    registers.write(RegisterAddress(*address), bytes)
}

// Judges a read and lays the reply of one that is done: address, count and registers.
#[tactic(auto, unfolding(crate::specs::Effect::registers_replying, crate::specs::Effect::replying))]
pub fn read(fixed: Fixed, registers: &[u8], content: &[u8], room: &mut [u8]) -> Performed
    ensures { replies result room.new ≡ registers_replying fixed (holding registers.now) content.now room.old }
{
    match judge_read(fixed.checking, content) {
        Ok((address, n)) => {
            let head = [READ_REGISTERS, address.0, n];
            let replied = laying::reply(fixed, head, usize::from(n), room, |run| {
                registers::read(registers, address, n, run)
            });
            outcomes::answer(Ok(()), replied)
        }
        Err(refusal) => outcomes::answer(Err(refusal), 0),
    }
}
