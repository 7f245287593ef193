// What stands at the front of the input: a run of line bytes, or one byte; nothing while a report waits.
ghost use Rattle.std.specs.Prelude.{◌≡◌};
ghost use Rattle.trace.specs.Inner.{goes_in_runs, ran_found, first_byte, first_lines, found};

use crate::run::{LONGEST_RUN, give_run};
use crate::{AtFront, Found, Trace};

impl Trace {
    // Whether line bytes go in a run: the panel is started, and no item is begun.
    fn goes_in_runs(self) -> bool
        ensures { result ≡ goes_in_runs self }
    {
        items::is_started(self.stage) & (self.have == 0)
    }
}

// The first byte, if there is one.
fn first_byte(trace: Trace, input: &[u8]) -> Found
    ensures { result ≡ first_byte trace input.now }
{
    if input.len() == 0 {
        return ran(0, trace);
    }
    Found {
        front: AtFront::First(input[0]),
        trace,
    }
}

// A run that took so much of the input.
fn ran(used: usize, trace: Trace) -> Found
    ensures { result ≡ ran_found used trace }
{
    Found {
        front: AtFront::Ran(used),
        trace,
    }
}

// The run of line bytes at the front, given to the panel; one byte where there is none.
fn first_lines(trace: Trace, input: &[u8]) -> Found
    ensures { result ≡ first_lines trace input.now }
{
    let mut run = wire::zeros::<LONGEST_RUN>();
    let n = items::gather_run(input, &mut run);
    if n == 0 {
        return first_byte(trace, input);
    }
    let took = give_run(trace, &run[..n]);
    ran(took.used, took.trace)
}

// What a step finds: line bytes go as a run between two items of a panel that is started, all else byte by byte.
pub fn find(trace: Trace, input: &[u8]) -> Found
    ensures { result ≡ found trace input.now }
{
    if trace.is_waiting() {
        return Found {
            front: AtFront::Waits,
            trace,
        };
    }
    if trace.goes_in_runs() {
        return first_lines(trace, input);
    }
    first_byte(trace, input)
}
