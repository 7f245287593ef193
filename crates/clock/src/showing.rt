// A moment as the bytes that show it, and back.
ghost use Rattle.std.specs.Prelude.{◌≡◌};
ghost use Rattle.clock.specs.Shown.{shown, date_in, time_in, moment_in, wrong_digits, wrong_moment};

use crate::{Date, Moment, SHOWN_BYTES, Time, digits};

// Year, month, day, weekday, hour, minute, second. A function and no `From`: docs/CONTRACTS.md names it, and a second way to write it says no more.
#[tactic(auto, unfolding(crate::specs::Shown::shown))]
pub fn shown(moment: Moment) -> [u8; SHOWN_BYTES]
    ensures { result ≡ shown moment }
{
    let Moment { date, time } = moment;
    [
        digits::digits_of(date.year),
        digits::digits_of(date.month),
        digits::digits_of(date.day),
        date.weekday(),
        digits::digits_of(time.hour),
        digits::digits_of(time.minute),
        digits::digits_of(time.second),
    ]
}

// The date that these bytes show.
#[tactic(auto, unfolding(crate::specs::Shown::date_in))]
pub fn date_in(year: u8, month: u8, day: u8) -> Date
    ensures { result ≡ date_in year month day }
{
    Date {
        year: digits::number_of(year),
        month: digits::number_of(month),
        day: digits::number_of(day),
    }
}

// The time that these bytes show.
#[tactic(auto, unfolding(crate::specs::Shown::time_in))]
pub fn time_in(hour: u8, minute: u8, second: u8) -> Time
    ensures { result ≡ time_in hour minute second }
{
    Time {
        hour: digits::number_of(hour),
        minute: digits::number_of(minute),
        second: digits::number_of(second),
    }
}

// The moment that these bytes show, whatever weekday stands among them; bytes past the end count as 00.
#[tactic(auto, unfolding(crate::specs::Shown::moment_in))]
pub fn moment_in(bytes: &[u8]) -> Moment
    ensures { result ≡ moment_in bytes.now }
{
    let at = |place| wire::byte_at(bytes, place);
    Moment {
        date: date_in(at(0), at(1), at(2)),
        time: time_in(at(4), at(5), at(6)),
    }
}

// One of the bytes but the weekday's has a half above 9.
#[tactic(auto, unfolding(crate::specs::Shown::wrong_digits))]
fn has_wrong_digits(bytes: &[u8]) -> bool
    ensures { result ≡ wrong_digits bytes.now }
{
    [0, 1, 2, 4, 5, 6]
        .iter()
        .any(|place| !digits::are_digits(wire::byte_at(bytes, *place)))
}

// The bytes show no moment: a wrong digit, or a date or time that does not exist.
#[tactic(auto, unfolding(crate::specs::Shown::wrong_moment))]
pub fn is_wrong(bytes: &[u8]) -> bool
    ensures { result ≡ wrong_moment bytes.now }
{
    has_wrong_digits(bytes) || !moment_in(bytes).exists()
}
