// What a setup may say, and what it chooses.
ghost use Rattle.std.specs.Prelude.{◌≡◌, []};
ghost use Rattle.wire.specs.Numbers.{says};
ghost use Rattle.touch.specs.Setup.{good_setup, number_of_setup, setup_said, checking_of, acknowledging_of};
ghost use Rattle.touch.specs.Rounding.{sheet_of};

use crate::Setup;
use stores::Sheet;

// How many values the flags may take: bit 0 checking, bit 1 acknowledging, bit 2 the scale sheet.
const FLAG_VALUES: u8 = 8;

pub fn good_setup(s: Setup) -> bool
    ensures value { result ≡ good_setup s }
    ensures result_value { says (number_of_setup result) [] ≡ setup_said s }
{
    s.flags < FLAG_VALUES
        && (1..=65280).contains(&s.pages)
        && (1..=1024).contains(&s.width)
        && (1..=768).contains(&s.height)
}

pub fn checking(s: Setup) -> bool
    ensures { result ≡ checking_of s }
{
    s.flags % 2 == 1
}

pub fn acknowledging(s: Setup) -> bool
    ensures { result ≡ acknowledging_of s }
{
    s.flags / 2 % 2 == 1
}

pub fn sheet(s: Setup) -> Sheet
    ensures { result ≡ sheet_of s }
{
    if s.flags / 4 % 2 == 1 {
        Sheet::Revised
    } else {
        Sheet::Old
    }
}
