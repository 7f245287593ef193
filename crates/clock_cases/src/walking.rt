// From day to day by the clock: over the last second of each.
ghost use Rattle.std.specs.Prelude.{◌≡◌, ◌≤◌, IfOk};
ghost use Rattle.clock.specs.Passing.{timed, moment, tomorrow};

use crate::say::Shown;
use crate::sums;
use clock::{Date, Moment, Time};
use std::io::{self, Write};

// More days than a year has. A walk ends behind so many whatever the clock does, since a proved loop has to end.
const MANY_DAYS: usize = 400;

const MIDNIGHT: Time = Time {
    hour: 0,
    minute: 0,
    second: 0,
};

const LAST_SECOND: Time = Time {
    hour: 23,
    minute: 59,
    second: 59,
};

// The day that was come to, how many days were gone through, and their check value.
#[derive(Clone, Copy)]
pub struct Walk {
    pub date: Date,
    pub days: usize,
    pub value: u64,
}

pub fn midnight(date: Date) -> Moment
    ensures { result ≡ moment date (timed 0 0 0) }
{
    Moment {
        date,
        time: MIDNIGHT,
    }
}

fn last_second(date: Date) -> Moment
    ensures { result ≡ moment date (timed 23 59 59) }
{
    Moment {
        date,
        time: LAST_SECOND,
    }
}

// The day that the clock comes to behind the last second of a date; where it is not midnight then, that is said.
#[tactic(auto, unfolding(clock::specs::Passing::next_second, clock::specs::Passing::ends_day))]
fn day_behind<W: Write>(out: &mut W, date: Date) -> io::Result<Date>
    ensures { IfOk result (λ next. next ≡ tomorrow date) }
{
    let last = last_second(date);
    let next = last.next();
    if next.time != MIDNIGHT {
        writeln!(out, "no midnight:{},{}", Shown(last), Shown(next))?;
    }
    Ok(next.date)
}

// From a date through the days of its year.
pub fn through_year<W: Write>(out: &mut W, from: Date) -> io::Result<Walk>
    ensures { IfOk result (λ walk. walk.days ≤ 400) }
{
    let mut date = from;
    let mut value = sums::NONE;
    for days in 0..MANY_DAYS {
        if date.year != from.year {
            return Ok(Walk { date, days, value });
        }
        value = sums::with_day(value, date);
        date = day_behind(out, date)?;
    }
    Ok(Walk {
        date,
        days: MANY_DAYS,
        value,
    })
}
