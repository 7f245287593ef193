// The mode byte and the rounds behind it.
ghost use Rattle.std.specs.Prelude.{◌≡◌, ◌/◌, ◌≤◌, ◌<◌, length, get_or};
ghost use Rattle.curves.specs.Area.{channel_count};
ghost use Rattle.curves.specs.Inner.{column};
ghost use Rattle.curves.specs.Rounds.{named, round_size, wrong_rounds};

use crate::Numbers;

// Whether the mode byte names a channel.
pub(crate) fn names(mode: u8, channel: usize) -> bool
    requires { channel < channel_count }
    ensures { result ≡ named mode channel }
{
    (mode >> channel) & 1 == 1
}

// How many numbers a round has: one for each channel that the mode byte names.
pub(crate) fn size_of(mode: u8) -> usize
    ensures value { result ≡ round_size mode }
    ensures upper_bound { result ≤ channel_count }
{
    // `as`, since usize has no From<u32>.
    mode.count_ones() as usize
}

impl<'a> Numbers<'a> {
    // Those behind a mode byte.
    pub(crate) fn behind(mode: u8, bytes: &'a [u8]) -> Numbers<'a>
        ensures same_bytes { result.bytes.now ≡ bytes.now }
        ensures size { result.size ≡ round_size mode }
        ensures rounds { result.rounds ≡ length bytes.now / 2 / round_size mode }
    {
        let size = size_of(mode);
        let rounds = (bytes.len() / 2).checked_div(size).unwrap_or(0);
        Numbers {
            bytes,
            size,
            rounds,
        }
    }

    // The number at a place of a round.
    pub(crate) fn at(&self, round: usize, place: usize) -> u16
        requires { (place < self.now.size) × (round < self.now.rounds) }
        ensures { result ≡ get_or (column self.now place) round 0 }
    {
        let at = (round * self.size + place) * 2;
        wire::word(self.bytes[at], self.bytes[at + 1])
    }
}

// The data of an 0x84 is refused: no mode byte, mode 00, no round, or one that is not finished.
#[tactic(auto, unfolding(crate::specs::Rounds::wrong_rounds))]
pub fn is_wrong(content: &[u8]) -> bool
    ensures { result ≡ wrong_rounds content.now }
{
    let size = size_of(wire::byte_at(content, 0));
    let n = content.len().saturating_sub(1);
    size == 0 || n == 0 || !n.is_multiple_of(size + size)
}
