// The ends of months, each by four moments.
ghost use Rattle.std.specs.Prelude.{◌≤◌};

use crate::say::Shown;
use crate::sums;
use clock::{Date, Moment, Time};
use std::io::{self, Write};

// The last day that exists of a month; 0 where none does.
fn last_day(year: u8, month: u8) -> u8
    ensures { result ≤ 31 }
{
    (1..=31)
        .rev()
        .find(|day| {
            let date = Date {
                year,
                month,
                day: *day,
            };
            date.exists()
        })
        .unwrap_or(0)
}

// 23:59:58 on the last day of a month.
fn before_end(year: u8, month: u8) -> Moment {
    Moment {
        date: Date {
            year,
            month,
            day: last_day(year, month),
        },
        time: Time {
            hour: 23,
            minute: 59,
            second: 58,
        },
    }
}

// From two seconds before midnight to one behind it.
fn end_of(year: u8, month: u8) -> [Moment; 4] {
    let first = before_end(year, month);
    let second = first.next();
    let third = second.next();
    [first, second, third, third.next()]
}

// The check value of all ends of a year's months.
pub fn of_year(year: u8) -> u64 {
    (1..=12)
        .flat_map(|month| end_of(year, month))
        .fold(sums::NONE, sums::with_moment)
}

pub fn say_year<W: Write>(out: &mut W, year: u8) -> io::Result<()> {
    for month in 1..=12 {
        let [first, second, third, fourth] = end_of(year, month).map(Shown);
        writeln!(out, "end{first},{second},{third},{fourth}")?;
    }
    Ok(())
}
