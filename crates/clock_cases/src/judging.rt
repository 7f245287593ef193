// Every value of each of the seven bytes that show a moment.
ghost use Rattle.std.specs.Prelude.{◌≤◌};

use crate::say::Shown;
use crate::sums;
use clock::{Moment, SHOWN_BYTES};
use std::io::{self, Write};

// How many values of a byte are wrong, and the check value of all the answers.
#[derive(Clone, Copy)]
struct Answers {
    wrong: usize,
    value: u64,
}

// Of the bytes that show a moment, with each value at a place.
fn of_place(m: Moment, place: usize) -> Answers
    ensures { result.wrong ≤ 256 }
{
    let mut bytes = clock::shown(m);
    let mut wrong: usize = 0;
    let mut value = sums::NONE;
    for b in 0..=u8::MAX {
        if let Some(at) = bytes.get_mut(place) {
            *at = b;
        }
        let one = u8::from(clock::is_wrong(&bytes));
        wrong += usize::from(one);
        value = sums::with_byte(value, one);
    }
    Answers { wrong, value }
}

pub fn judge<W: Write>(out: &mut W, bytes: &[u8]) -> io::Result<()> {
    let m = clock::moment_in(bytes);
    let shown = Shown(m);
    for place in 0..SHOWN_BYTES {
        let Answers { wrong, value } = of_place(m, place);
        writeln!(
            out,
            "byte {place} of{shown}: {wrong} wrong, answers {value}"
        )?;
    }
    Ok(())
}
