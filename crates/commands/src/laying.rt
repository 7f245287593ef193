// A read's reply, laid where it is sent from.
ghost use Rattle.std.specs.Prelude.{◌≡◌, ℕ, List, ◌∷◌, ◌++◌, ◌+◌, ◌≤◌, length};
ghost use Rattle.wire.specs.Room.{lays};
ghost use Rattle.frame.specs.Frame.{header_bytes, most_data};
ghost use Rattle.frame.specs.Writer.{frame_laid};
ghost use Rattle.commands.specs.Inner.{LaysRun};

use crate::Fixed;

// Lays a reply's command and data: the head, and behind it the n bytes that `lay` lays. A room that does not hold the reply stays.
pub(crate) fn reply<const N: usize, F: FnOnce(&mut [u8]) -> usize>(
    fixed: Fixed,
    head: [u8; N],
    n: usize,
    room: &mut [u8],
    lay: F,
) -> usize
    requires callable { F.IsAlwaysCallable lay }
    requires fits { N + n ≤ 1 + most_data fixed.checking }
    ensures { (command : ℕ) (payload run : List ℕ) → command ∷ payload ≡ head.entry ++ run → length run ≡ n → LaysRun (F.post lay) n run → lays result room.new ≡ frame_laid fixed.checking (header_bytes fixed.header) command payload room.old }
{
    let at = fixed.header.length() + 1;
    let size = N + n;
    if room.len() < at + (size + frame::check_length(fixed.checking)) {
        return 0;
    }
    let body = &mut room[at..];
    body[..N].copy_from_slice(&head);
    lay(&mut body[N..]);
    frame::close_frame(fixed.header, fixed.checking, size, room)
}
