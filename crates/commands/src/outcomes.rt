// What an outcome says to those who go on from it, and the one number that both reads share.
ghost use Rattle.std.specs.Prelude.{◌≡◌, ◌≤◌, cond, IfOk};
ghost use Rattle.frame.specs.Frame.{most_data};
ghost use Rattle.commands.specs.Outcome.{number_of_outcome, reply_too_long};
ghost use Rattle.commands.specs.Effect.{answered};

use crate::{Performed, Refusal};

impl Refusal {
    // 01's number.
    #[tactic(auto, unfolding(crate::specs::Outcome::number_of_outcome))]
    pub fn number(self) -> u8
        ensures { result ≡ number_of_outcome (Err self) }
    {
        match self {
            Refusal::UnknownCommand => 2,
            Refusal::WrongData => 3,
            Refusal::PastEnd => 4,
            Refusal::Unwritable => 5,
            Refusal::WrongValue => 6,
            Refusal::ReplyTooLong => 7,
        }
    }
}

// Registers, catch and curves stay, and nothing is noted. No `?` in its callers: a refusal is a `Performed` too, whose outcome it is.
pub(crate) fn answer(outcome: Result<(), Refusal>, replied: usize) -> Performed
    ensures { result ≡ answered outcome replied }
{
    Performed {
        outcome,
        writes: false,
        drops: false,
        adds: false,
        notes: false,
        replied,
    }
}

// 7: whether a frame carries a reply with so much data.
pub(crate) fn fits_reply(checking: bool, payload: usize) -> Result<(), Refusal>
    ensures outcome { result ≡ cond (reply_too_long checking payload) (Err Refusal.ReplyTooLong) (Ok tt) }
    ensures fits { IfOk result (λ _. payload ≤ most_data checking) }
{
    if frame::most_data(checking) < payload {
        return Err(Refusal::ReplyTooLong);
    }
    Ok(())
}
