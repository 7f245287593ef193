// What stands at the first byte held: whether it is a report, how long its frame is, how much goes with its report.
// Functions and no methods: `Look` is place's type.
ghost use Rattle.std.specs.Prelude.{◌≡◌, ◌≤◌};
ghost use Rattle.frame.specs.Frame.{header_bytes, longest_frame};
ghost use Rattle.line.specs.Inner.{decided_at};
ghost use Rattle.line.specs.Methods.{is_answer, takes, body_length, span};

use frame::{Header, LONGEST_FRAME};
use place::Look;

// Whether a report stands there.
fn is_report(look: Look) -> bool
    ensures { result ≡ is_answer look }
{
    matches!(look, Look::Bad(_) | Look::Good(_))
}

// Whether an input can be taken with n bytes held. `&` and no `&&`: it is asked for each byte, and a branch costs more than it saves.
pub fn can_take(n: usize, head: Look) -> bool
    ensures { result ≡ takes n head }
{
    (n < LONGEST_FRAME) & !is_report(head)
}

// The L of an accepted frame.
pub fn body_length(look: Look) -> usize
    ensures { (result ≡ body_length look) × (result ≤ 255) }
{
    match look {
        Look::Pass | Look::Wait | Look::Bad(_) => 0,
        Look::Good(l) => usize::from(l),
    }
}

// How many bytes go with the report: one with a bad check, the whole frame with an accepted one, none where there is no report.
pub fn span_of(header: Header, look: Look) -> usize
    ensures { (result ≡ span (header_bytes header) look) × (result ≤ longest_frame) }
{
    let h = header.length();
    match look {
        Look::Pass | Look::Wait => 0,
        Look::Bad(_) => 1,
        Look::Good(l) => h + 1 + usize::from(l),
    }
}

// How long the bytes must be before the frame that the first begins is whole; 0 where the length byte has not come.
#[tactic(auto, unfolding(crate::specs::Inner::decided_at))]
pub fn whole_at(header: Header, s: &[u8]) -> usize
    ensures { (result ≡ decided_at (header_bytes header) s.now) × (result ≤ longest_frame) }
{
    let h = header.length();
    match s.get(h) {
        Some(l) => h + 1 + usize::from(*l),
        None => 0,
    }
}
