// The kind that a byte stands for, and how long the body of an item of it is.
ghost use Rattle.std.specs.Prelude.{◌≡◌, ◌<◌, MatchResult};
ghost use Rattle.items.specs.Items.{body_length};
ghost use Rattle.items.specs.KindBytes.{number_of};

use crate::{Kind, UnknownKind};
use touch::RECORD_BYTES;

impl TryFrom<u8> for Kind {
    type Error = UnknownKind;

    // The kind whose number the byte is; else the byte, which is above those of all kinds.
    ghost try_from_gives = { λ b r. MatchResult r (λ kind. number_of kind ≡ b) (λ e. (e.0 ≡ b) × (6 < b)) };

    fn try_from(b: u8) -> Result<Self, UnknownKind> {
        match b {
            0 => Ok(Kind::Setup),
            1 => Ok(Kind::LineByte),
            2 => Ok(Kind::Mark),
            3 => Ok(Kind::Contact),
            4 => Ok(Kind::Lift),
            5 => Ok(Kind::Record),
            6 => Ok(Kind::Second),
            _ => Err(UnknownKind(b)),
        }
    }
}

impl Kind {
    // How long the body of an item of this kind is.
    #[tactic(auto, unfolding(crate::specs::Items::body_length))]
    pub fn body_length(self) -> usize
        ensures { result ≡ body_length (number_of self) }
    {
        match self {
            Kind::Setup => 9,
            Kind::LineByte => 1,
            Kind::Contact => 4,
            Kind::Record => RECORD_BYTES,
            Kind::Mark | Kind::Lift | Kind::Second => 0,
        }
    }
}

// The same for any byte; the kind of no item has none.
#[tactic(auto, unfolding(crate::specs::Items::body_length))]
pub fn body_length(kind: u8) -> usize
    ensures { result ≡ body_length kind }
{
    Kind::try_from(kind).map_or(0, Kind::body_length)
}
