// From the input to lines in the room, and out.
ghost use Rattle.std.specs.Prelude.{◌≤◌, length, take, OnOk};
ghost use Rattle.telling.specs.Memory.{remembering};
ghost use Rattle.telling.specs.Told.{least_text};
ghost use Rattle.trace.specs.State.{holds};
ghost use Rattle.printing.specs.Reached.{HeldSound};
ghost use Rattle.panel_trace.specs.Inner.{Filling, Passing};

use crate::Filled;
use crate::output::write_text;
use std::io;
use std::time::Clock;
use trace::{LEAST_TEXT, Trace};

// Takes the input, and lays the lines of it over the front of the room, while the lines of a report fit behind them. No `for`: a step takes as much of the
// input as it likes, and none of it while a report waits.
fn fill(
    trace: Trace,
    input: &[u8],
    table: &mut [u8],
    words: &mut [u16],
    curves: &mut [u16],
    room: &mut [u8],
) -> Filled
    requires held_sound { HeldSound (holds trace table.old (remembering words.old curves.old)) }
    requires least_text_in_bounds { least_text ≤ length room.old }
    ensures count_in_bounds { result.count ≤ length room.new }
    ensures filling { Filling (holds trace table.old (remembering words.old curves.old)) input.now (holds result.trace table.new (remembering words.new curves.new)) result.used (take result.count room.new) }
{
    let mut now = trace;
    let mut at = 0;
    let mut filled = 0;
    while (LEAST_TEXT <= room.len() - filled) & ((at < input.len()) | now.is_waiting()) {
        let done = now.step(&input[at..], table, words, curves, &mut room[filled..]);
        now = done.trace;
        at += done.used;
        filled += done.count;
    }
    Filled {
        trace: now,
        used: at,
        count: filled,
    }
}

// Takes all of an input, and writes the lines of it, a room full of them at a time.
pub(crate) fn feed(
    rt: &(impl Print + Clock),
    trace: &mut Trace,
    input: &[u8],
    table: &mut [u8],
    words: &mut [u16],
    curves: &mut [u16],
    room: &mut [u8],
) -> io::Result<()>
    requires held_sound { HeldSound (holds trace.old table.old (remembering words.old curves.old)) }
    requires least_text_in_bounds { least_text ≤ length room.old }
    ensures stays_sound { HeldSound (holds trace.new table.new (remembering words.new curves.new)) }
    ensures passing { OnOk result (Passing (holds trace.old table.old (remembering words.old curves.old)) input.now (holds trace.new table.new (remembering words.new curves.new))) }
{
    let mut at = 0;
    while (at < input.len()) | trace.is_waiting() {
        let filled = fill(*trace, &input[at..], table, words, curves, room);
        *trace = filled.trace;
        at += filled.used;
        write_text(rt, &room[..filled.count])?;
    }
    Ok(())
}
