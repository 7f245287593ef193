// How many numbers the channels have.
ghost use Rattle.std.specs.Prelude.{◌≡◌};
ghost use Rattle.curves.specs.Area.{no_counts, count_of};
ghost use Rattle.curves.specs.Clearing.{cleared};

use crate::{CHANNEL_COUNT, Counts};

// Those of a panel that has just been started.
#[tactic(auto, unfolding(crate::specs::Area::no_counts))]
pub fn none() -> Counts
    ensures { result ≡ no_counts }
{
    Counts {
        each: [0; CHANNEL_COUNT],
    }
}

impl Counts {
    // How many numbers a channel has; past the last channel, 0.
    #[tactic(auto, unfolding(crate::specs::Area::count_of))]
    pub fn of(self, channel: usize) -> u16
        ensures { result ≡ count_of self channel }
    {
        self.each.get(channel).copied().unwrap_or(0)
    }
}

// The counts behind a value of register EB: 55 clears all channels, 56 to 5D one, any other none.
#[tactic(auto, unfolding(crate::specs::Clearing::cleared))]
pub fn cleared(mut counts: Counts, value: u8) -> Counts
    ensures { result ≡ cleared value counts }
{
    match value {
        0x55 => none(),
        0x56..=0x5D => {
            counts.each[usize::from(value - 0x56)] = 0;
            counts
        }
        _ => counts,
    }
}
