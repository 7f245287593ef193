// Walks the clock through its whole century and over the end, day by day; over every end of a month, second by second; and judges every byte in each place
// of the seven that show a moment. What it must print Python's own calendar works out, in tests/clock_model.py. The lines:
//   year 2000: behind 0 days, has 366, days 1, ends 2
//                           a year that the clock walked through: how many days before it, how many in it, and the check values of its days, each by
//                           month, day and weekday, and of the ends of its months, each by four moments
//   walked 36525 days, to 00 01 01 06 00 00 00
//                           the days of a hundred years, and the moment that comes then; the year that begins there follows
//   end 00 01 31 01 23 59 58, ..
//                           an end of a month: four moments, a second between them
//   byte 2 of 16 02 29 01 12 34 56: 227 wrong, answers 3
//                           how many values of that byte make the seven show no moment, and the check value of all 256 answers
//   no midnight: 00 01 01 06 23 59 59, 00 01 02 00 05 00 00
//                           the second behind the last of a day is not the first of one; there is no such line
#![tactic(auto)]

use clock::Date;
use say::Shown;
use std::io::{self, BufWriter, Write};
use walking::Walk;

mod ends;
mod judging;
mod say;
mod sums;
mod walking;

// How many years the clock goes through before the first comes again.
const YEARS: usize = 100;

// A year that the clock went through.
fn say_year<W: Write>(out: &mut W, first: Date, walk: Walk) -> io::Result<()> {
    let year = 2000 + usize::from(first.year);
    let behind = first.day_number();
    let Walk { days, value, .. } = walk;
    let ends = ends::of_year(first.year);
    writeln!(
        out,
        "year {year}: behind {behind} days, has {days}, days {value}, ends {ends}"
    )
}

fn walk<W: Write>(out: &mut W) -> io::Result<()> {
    let mut date = Date {
        year: 0,
        month: 1,
        day: 1,
    };
    let mut days = 0;
    for _ in 0..YEARS {
        let walk = walking::through_year(out, date)?;
        say_year(out, date, walk)?;
        days += walk.days;
        date = walk.date;
    }
    writeln!(
        out,
        "walked {days} days, to{}",
        Shown(walking::midnight(date))
    )?;
    let walk = walking::through_year(out, date)?;
    say_year(out, date, walk)
}

fn main(rt: HostRuntime) -> io::Result<()> {
    let mut out = BufWriter::new(rt.alloc(), io::writer(&rt))?;
    walk(&mut out)?;
    // The first year, a common one, a leap one and the last.
    for year in [0, 15, 16, 99] {
        ends::say_year(&mut out, year)?;
    }
    // A leap day, the day before one that there is not, the last second; the weekday's byte does not count.
    judging::judge(&mut out, b"\x16\x02\x29\xFF\x12\x34\x56")?;
    judging::judge(&mut out, b"\x01\x02\x28\xFF\x00\x00\x00")?;
    judging::judge(&mut out, b"\x99\x12\x31\xFF\x23\x59\x59")?;
    out.flush()
}
