// The clock of 02, §6: a moment as numbers, the Gregorian calendar, the next second, and a moment as the bytes that show it. It knows no registers.
#![tactic(auto)]

mod calendar; // leap years, months, days counted, weekdays
mod digits; // two decimal digits in a byte, and back
mod passing; // the next day and the next second
mod showing; // a moment as bytes, and back

pub use digits::{digits_of, number_of};
pub use showing::{date_in, is_wrong, moment_in, shown, time_in};

// How many bytes show a moment; `shown` in specs/ lists them.
pub const SHOWN_BYTES: usize = 7;

#[derive(Clone, Copy, Debug, PartialEq, Eq)]
pub struct Date {
    // Since 2000.
    pub year: u8,
    // From 1 on, as the day.
    pub month: u8,
    pub day: u8,
}

#[derive(Clone, Copy, Debug, PartialEq, Eq)]
pub struct Time {
    pub hour: u8,
    pub minute: u8,
    pub second: u8,
}

#[derive(Clone, Copy, Debug, PartialEq, Eq)]
pub struct Moment {
    pub date: Date,
    pub time: Time,
}
