// How far the input has come, and what may come then.
ghost use Rattle.std.specs.Prelude.{◌≡◌};
ghost use Rattle.items.specs.Stages.{is_started, is_over, may_come};

use crate::{Kind, Stage};

#[tactic(auto, unfolding(crate::specs::Stages::is_started))]
pub fn is_started(stage: Stage) -> bool
    ensures { result ≡ is_started stage }
{
    stage == Stage::Started
}

#[tactic(auto, unfolding(crate::specs::Stages::is_over))]
pub fn is_over(stage: Stage) -> bool
    ensures { result ≡ is_over stage }
{
    stage == Stage::Over
}

// Whether an item of this kind may come.
#[tactic(auto, unfolding(crate::specs::Stages::may_come))]
pub fn may_come(stage: Stage, kind: u8) -> bool
    ensures { result ≡ may_come stage kind }
{
    let Ok(kind) = Kind::try_from(kind) else {
        return false;
    };
    match kind {
        Kind::Setup => stage == Stage::Bare,
        Kind::Record => stage == Stage::Ready,
        _ => matches!(stage, Stage::Ready | Stage::Started),
    }
}
