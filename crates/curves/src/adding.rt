// What the data of 0x84 does to the channels.
ghost use Rattle.std.specs.Prelude.{◌≡◌, ◌∷◌, ◌<◌, length};
ghost use Rattle.curves.specs.Area.{channel_count, curve_words, draws, on_channel};
ghost use Rattle.curves.specs.Inner.{column};
ghost use Rattle.curves.specs.Adding.{added_from, added};

use crate::{CHANNEL_COUNT, CHANNEL_WORDS, CURVE_WORDS, Counts, Numbers, rounds};

impl Numbers<'_> {
    // Adds the numbers at one place of the rounds to a channel.
    fn add_channel(&self, place: usize, n: usize, mut counts: Counts, area: &mut [u16]) -> Counts
        requires { (place < self.now.size) × (n < channel_count) × (length area.old ≡ curve_words) }
        ensures { draws result area.new ≡ on_channel n (column self.now place) (draws counts area.old) }
    {
        let from = n * CHANNEL_WORDS;
        counts.each[n] = self.add_to(place, counts.each[n], &mut area[from..from + CHANNEL_WORDS]);
        counts
    }
}

// All channels one after the other.
fn add_all(mut counts: Counts, mode: u8, bytes: &[u8], area: &mut [u16]) -> Counts
    requires { length area.old ≡ curve_words }
    ensures { draws result area.new ≡ added_from (mode ∷ bytes.now) 0 channel_count (draws counts area.old) }
{
    let numbers = Numbers::behind(mode, bytes);
    // `place` is counted by hand, since the invariant ties it to the channels named so far.
    let mut place = 0;
    for n in 0..CHANNEL_COUNT {
        if rounds::names(mode, n) {
            counts = numbers.add_channel(place, n, counts, area);
            place += 1;
        }
    }
    counts
}

// Adds the numbers of an 0x84 with this data to the channels that it names. Data that is refused, or an area of the wrong length, leaves all as it stood.
pub fn add(counts: Counts, content: &[u8], area: &mut [u16]) -> Counts
    ensures { draws result area.new ≡ added counts content.now area.old }
{
    if rounds::is_wrong(content) || area.len() != CURVE_WORDS {
        return counts;
    }
    add_all(counts, wire::byte_at(content, 0), &content[1..], area)
}
