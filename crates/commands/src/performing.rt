// Which command it is.
ghost use Rattle.std.specs.Prelude.{◌≡◌, length};
ghost use Rattle.registers.specs.Table.{holding};
ghost use Rattle.commands.specs.Lent.{Lent, with_words_room};
ghost use Rattle.commands.specs.Listed.{performed_said, perform_said};
ghost use Rattle.commands.specs.Perform.{performs, performance};

use crate::{
    ADD_CURVES, Fixed, Performed, READ_REGISTERS, READ_WORDS, Refusal, WRITE_REGISTERS,
    WRITE_WORDS, on_curves, on_registers, on_words, outcomes,
};

// A command with its data takes effect on what is lent, or is refused with nothing changed; a reply is laid over the front of the room. The
// registers are only read, the curves and the watch list not at all: what is to be written into them is answered.
// A byte and no enum: `perform` answers for every byte, 2 where it is no command.
pub fn perform(
    fixed: Fixed,
    registers: &[u8],
    command: u8,
    content: &[u8],
    words: &mut [u16],
    room: &mut [u8],
) -> Performed
    ensures room_after { (rest : Lent) → performs result (with_words_room rest words.new room.new) ≡ performance fixed (holding registers.now) command content.now (with_words_room rest words.old room.old) }
    ensures result_value { performed_said result ≡ perform_said fixed (length words.old) (length room.old) command content.now }
{
    match command {
        WRITE_REGISTERS => on_registers::write(fixed.pages, content),
        READ_REGISTERS => on_registers::read(fixed, registers, content, room),
        WRITE_WORDS => on_words::write(words, content),
        READ_WORDS => on_words::read(fixed, words, content, room),
        ADD_CURVES => on_curves::add(content),
        _ => outcomes::answer(Err(Refusal::UnknownCommand), 0),
    }
}
