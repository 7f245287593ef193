// Two decimal digits in a byte, the first in its upper half, and back.
ghost use Rattle.std.specs.Prelude.{◌≡◌, ◌≤◌};
ghost use Rattle.clock.specs.Digits.{digits_of, number_of, are_digits};

// The byte whose digits are the last two of a number.
#[tactic(auto, unfolding(crate::specs::Digits::digits_of))]
pub fn digits_of(n: u8) -> u8
    ensures { result ≡ digits_of n }
{
    n / 10 % 10 * 16 + n % 10
}

// The number whose digits a byte has.
#[tactic(auto, unfolding(crate::specs::Digits::number_of))]
pub fn number_of(b: u8) -> u8
    ensures { result ≡ number_of b }
{
    b / 16 * 10 + b % 16
}

// Neither half is above 9.
#[tactic(auto, unfolding(crate::specs::Digits::are_digits))]
pub(crate) fn are_digits(b: u8) -> bool
    ensures { result ≡ are_digits b }
{
    b / 16 <= 9 && b % 16 <= 9
}
