// 0x84: numbers for curves; and what a write of register EB clears.
ghost use Rattle.std.specs.Prelude.{◌≡◌};
ghost use Rattle.commands.specs.Outcome.{add_curves_outcome};
ghost use Rattle.commands.specs.Effect.{counts_left, curves_adding};

use crate::{Performed, Refusal, outcomes};
use curves::Counts;
use registers::RegisterAddress;

#[tactic(auto, unfolding(crate::specs::Outcome::add_curves_outcome))]
fn judge(content: &[u8]) -> Result<(), Refusal>
    ensures { result ≡ add_curves_outcome content.now }
{
    if curves::is_wrong(content) {
        Err(Refusal::WrongData)
    } else {
        Ok(())
    }
}

// Judges numbers for curves. Those of one that is done are asked to be added, which `curves::add` does.
#[tactic(auto, unfolding(crate::specs::Effect::curves_adding))]
pub fn add(content: &[u8]) -> Performed
    ensures { result ≡ curves_adding content.now }
{
    let outcome = judge(content);
    Performed {
        adds: outcome.is_ok(),
        ..outcomes::answer(outcome, 0)
    }
}

// The channels' counts as a write of registers with this data leaves them, where it is done.
#[tactic(auto, unfolding(crate::specs::Effect::counts_left))]
pub fn counts_left(counts: Counts, content: &[u8]) -> Counts
    ensures { result ≡ counts_left counts content.now }
{
    let [address, bytes @ ..] = content else {
        return counts;
    };
    let value = registers::clear_value(RegisterAddress(*address), bytes);
    curves::cleared(counts, value)
}
