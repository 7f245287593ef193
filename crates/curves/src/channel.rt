// What one channel's part of the area becomes.
ghost use Rattle.std.specs.Prelude.{◌≡◌, ◌++◌, ◌+◌, ◌-◌, ◌≤◌, ◌<◌, length, take, drop};
ghost use Rattle.wire.specs.Room.{over, lays};
ghost use Rattle.curves.specs.Area.{channel_words};
ghost use Rattle.curves.specs.Inner.{column, kept_in};

use crate::{CHANNEL_WORDS, Numbers};

// Moves the words from a place on, up to an end, down to the front: one move for all the numbers of a frame. Where none goes, none is moved.
fn move_down(part: &mut [u16], from: usize, end: usize)
    requires { (from ≤ end) × (end ≤ length part.old) }
    ensures { part.new ≡ over (take (end - from) (drop from part.old)) part.old }
{
    if from > 0 {
        part.copy_within(from..end, 0);
    }
}

impl Numbers<'_> {
    // Lays the numbers at one place of the rounds, from a round on, into a run of as many.
    fn lay(&self, place: usize, first: usize, run: &mut [u16])
        requires { (place < self.now.size) × (first + length run.old ≡ self.now.rounds) }
        ensures { run.new ≡ drop first (column self.now place) }
    {
        for (i, word) in run.iter_mut().enumerate() {
            *word = self.at(first + i, place);
        }
    }

    // The channel's part with the numbers at one place of the rounds behind those that it has; answers how many it then has.
    pub(crate) fn add_to(&self, place: usize, count: u16, part: &mut [u16]) -> u16
        requires { (place < self.now.size) × (length part.old ≡ channel_words) }
        ensures { lays result part.new ≡ kept_in part.old (take count part.old ++ column self.now place) }
    {
        let held = usize::from(count).min(CHANNEL_WORDS);
        let gone = (held + self.rounds).saturating_sub(CHANNEL_WORDS);
        // of those that go, first those that the channel has
        let old = gone.min(held);
        let end = held + self.rounds - gone;
        move_down(part, old, held);
        self.lay(place, gone - old, &mut part[held - old..end]);
        end as u16
    }
}
