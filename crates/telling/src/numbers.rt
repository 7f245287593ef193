// 01's number of each answer: 0, or that of the refusal. A function for each: a trait over the three would say no less than the arms that it saves.
ghost use Rattle.std.specs.Prelude.{◌≡◌};
ghost use Rattle.commands.specs.Outcome.{number_of_outcome};
ghost use Rattle.panel.specs.Numbers.{contact_number, lift_number};

use commands::Refusal;
use panel::{ContactError, LiftError};

#[tactic(auto, unfolding(commands::specs::Outcome::number_of_outcome))]
pub fn outcome_number(outcome: Result<(), Refusal>) -> u8
    ensures { result ≡ number_of_outcome outcome }
{
    outcome.map_or_else(Refusal::number, |()| 0)
}

#[tactic(auto, unfolding(panel::specs::Numbers::contact_number))]
pub fn contact_number(answer: Result<(), ContactError>) -> u8
    ensures { result ≡ contact_number answer }
{
    answer.map_or_else(ContactError::number, |()| 0)
}

#[tactic(auto, unfolding(panel::specs::Numbers::lift_number))]
pub fn lift_number(answer: Result<(), LiftError>) -> u8
    ensures { result ≡ lift_number answer }
{
    answer.map_or_else(LiftError::number, |()| 0)
}
