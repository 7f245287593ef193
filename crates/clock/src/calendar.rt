// The Gregorian calendar of the years from 2000 on: leap years, months, days counted, weekdays.
ghost use Rattle.std.specs.Prelude.{◌≡◌, cond, ◌+◌, ◌*◌, ◌≤◌, ◌<◌};
ghost use Rattle.clock.specs.Calendar.{leap_year, is_leap, month_days, days_before_month, days_before_year, day_number, weekday_of};
ghost use Rattle.clock.specs.Existing.{date_exists};

use crate::Date;

// The Gregorian rule.
#[tactic(auto, unfolding(crate::specs::Calendar::leap_year))]
fn is_leap_year(year: usize) -> bool
    ensures { result ≡ leap_year year }
{
    year % 4 == 0 && (year % 100 != 0 || year % 400 == 0)
}

// How many days a month has; a number that is no month's has none.
#[tactic(auto, unfolding(crate::specs::Calendar::month_days, crate::specs::Calendar::month_lengths))]
pub(crate) fn month_days(leap: bool, month: u8) -> u8
    ensures value { result ≡ month_days leap month }
    ensures upper_bound { result ≤ 31 }
{
    match month {
        1 | 3 | 5 | 7 | 8 | 10 | 12 => 31,
        4 | 6 | 9 | 11 => 30,
        2 if leap => 29,
        2 => 28,
        _ => 0,
    }
}

// How many days of a year come before a month.
fn days_before_month(leap: bool, month: u8) -> usize
    ensures value { result ≡ days_before_month leap month }
    ensures upper_bound { result ≤ 31 * month }
{
    (0..month).map(|m| usize::from(month_days(leap, m))).sum()
}

// How many days come before a year: 365 for each year, and one more for each leap year, of which all but every hundredth fourth year is one, but every
// four hundredth.
#[tactic(auto, using(crate::proofs::Answers::by_years))]
fn days_before_year(year: u8) -> usize
    ensures value { result ≡ days_before_year year }
    ensures upper_bound { result < 100000 }
{
    let y = usize::from(year);
    365 * y + (y + 3) / 4 + (y + 399) / 400 - (y + 99) / 100
}

impl Date {
    // By the Gregorian rule.
    pub fn is_in_leap_year(self) -> bool
        ensures { result ≡ is_leap self }
    {
        is_leap_year(2000 + usize::from(self.year))
    }

    // How many days the date is behind 1 January 2000.
    #[tactic(auto, unfolding(crate::specs::Calendar::day_number))]
    pub fn day_number(self) -> usize
        ensures value { result ≡ day_number self }
        ensures upper_bound { result < 200000 }
    {
        let before = days_before_month(self.is_in_leap_year(), self.month);
        days_before_year(self.year) + before + usize::from(self.day).saturating_sub(1)
    }

    // Sunday is 0.
    #[tactic(auto, unfolding(crate::specs::Calendar::weekday_of))]
    pub fn weekday(self) -> u8
        ensures { result ≡ weekday_of self }
    {
        ((6 + self.day_number()) % 7) as u8
    }

    // Of the years 2000 to 2099.
    #[tactic(auto, unfolding(crate::specs::Existing::date_exists))]
    pub fn exists(self) -> bool
        ensures { result ≡ date_exists self }
    {
        let days = month_days(self.is_in_leap_year(), self.month);
        self.year < 100 && (1..=days).contains(&self.day)
    }
}
