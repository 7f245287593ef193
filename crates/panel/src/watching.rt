// The watched words: what a line write notes, and what a contact sends unasked.
ghost use Rattle.std.specs.Prelude.{◌≡◌, List, ◌∷◌, ◌++◌, ℕ, ◌≤◌, length};
ghost use Rattle.wire.specs.ByteOrder.{high_first};
ghost use Rattle.wire.specs.Room.{lays};
ghost use Rattle.frame.specs.Writer.{least_room, frame_laid};
ghost use Rattle.touch.specs.Setup.{checking_of};
ghost use Rattle.watch.specs.Watched.{list_of, with_sent};
ghost use Rattle.commands.specs.Lent.{lending};
ghost use Rattle.panel.specs.State.{header_of};
ghost use Rattle.panel.specs.Reporting.{noting};
ghost use Rattle.panel.specs.Watching.{tells, telling};

use crate::starting;
use touch::Setup;
use watch::WatchList;
use words::WordAddress;

// Notes the words of a write that is done, which stand in the words already.
pub(crate) fn note(notes: bool, content: &[u8], words: &[u16], list: &mut WatchList<'_, '_>)
    ensures noted { list_of list.new ≡ noting notes content.now words.now (list_of list.old) }
    ensures list_after { list.new ≡ with_sent list.old list.new.values.now }
{
    if notes {
        let first = WordAddress(wire::word_at(content, 0));
        list.note(words, first, content.len().saturating_sub(2) / 2);
    }
}

// Lays the unasked reply for a word; answers how long it is.
fn put_reply(setup: Setup, address: WordAddress, word: u16, room: &mut [u8]) -> usize
    ensures { lays result room.new ≡ frame_laid (checking_of setup) (header_of setup) 0x83 (high_first address.0 ++ (1 ∷ high_first word)) room.old }
{
    let a = address.0;
    let payload = [
        wire::high_byte(a),
        wire::low_byte(a),
        1,
        wire::high_byte(word),
        wire::low_byte(word),
    ];
    let header = starting::header_for(setup);
    frame::put_frame(header, touch::checking(setup), 0x83, &payload, room)
}

// Sends the word of the first entry that is due: its reply stands at the front of the room; answers how long it is.
pub(crate) fn tell(
    setup: Setup,
    words: &[u16],
    room: &mut [u8],
    list: &mut WatchList<'_, '_>,
) -> usize
    requires { least_room ≤ length room.old }
    ensures told { (curves : List ℕ) → tells result (lending words.now curves room.new (list_of list.new)) ≡ telling setup (lending words.now curves room.old (list_of list.old)) }
    ensures list_after { list.new ≡ with_sent list.old list.new.values.now }
{
    match list.send(words) {
        None => 0,
        Some(address) => put_reply(setup, address, words::at(words, address), room),
    }
}
