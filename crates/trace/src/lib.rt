// 01, "The trace program", as a library: a trace is a value that takes the input a piece at a time and writes lines into a lent room.
#![tactic(auto)]

ghost use Rattle.std.specs.Prelude.{◌≡◌};
ghost use Rattle.telling.specs.Memory.{remembering};
ghost use Rattle.items.specs.Stages.{is_over};
ghost use Rattle.trace.specs.State.{new_trace, waits, holds};
ghost use Rattle.trace.specs.Steps.{steps, stepping, step_said, said_of_step};
ghost use Rattle.trace.specs.Output.{ends, ending, end_said, said_of_end};

use items::{ITEM_BYTES, KEPT_RECORDS, Stage};
use panel::Panel;
use touch::{RECORD_BYTES, Setup};

mod byte;
mod event;
mod front;
mod item;
mod last;
mod lines;
mod records;
mod report;
mod run;
mod step;

pub use telling::LEAST_TEXT;

// How many bytes of table must be lent; `table_bytes` in specs/.
pub const TABLE_BYTES: usize = KEPT_RECORDS * RECORD_BYTES;

#[derive(Clone, Copy)]
pub struct Trace {
    stage: Stage,
    // The item that is being gathered, its kind first, and how many of its bytes have come.
    item: [u8; ITEM_BYTES],
    have: usize,
    setup: Setup,
    // How many records the lent table holds.
    records: usize,
    panel: Panel,
}

// Why nothing was taken.
#[derive(Clone, Copy, Debug, PartialEq, Eq)]
pub enum LentError {
    // Table, words, curve area or room are not what they must be.
    NotLent,
}

// How much of the input was taken, and how many bytes of text were written.
#[derive(Clone, Copy)]
pub struct Stepped {
    pub answer: Result<(), LentError>,
    pub used: usize,
    pub count: usize,
    pub trace: Trace,
}

// The count stands beside the answer, here and in `Stepped`, since `ending` and `stepping` promise it beside a refusal too.
#[derive(Clone, Copy)]
pub struct Ended {
    pub answer: Result<(), LentError>,
    pub count: usize,
}

// What a byte or a report does to the trace, and how many bytes of text were written for it.
#[derive(Clone, Copy)]
struct TracePrinted {
    trace: Trace,
    count: usize,
}

// The same for a step, and how much of the input it took.
#[derive(Clone, Copy)]
struct Took {
    trace: Trace,
    used: usize,
    count: usize,
}

// The types below say what is to be done, which is found before anything lent is touched: a function that hands on what is lent is then short. Table and
// room go on as lent slices with a `requires`: a struct over `&mut` slices would be taken apart and lent again at each call. What is handed them is a function in
// the file of its step, and no method: it would be no shorter.

// What stands at the front of the input.
#[derive(Clone, Copy)]
enum AtFront {
    // A report comes before any input.
    Waits,
    // A run of line bytes, which the panel was given, and how much of the input it took; or nothing.
    Ran(usize),
    // Any other byte.
    First(u8),
}

// What stands there, and the trace to go on with.
#[derive(Clone, Copy)]
struct Found {
    front: AtFront,
    trace: Trace,
}

// What a byte of the input comes to.
#[derive(Clone, Copy)]
enum Comes {
    // Nothing is printed.
    Quiet,
    // A kind that may not come.
    Wrong,
    // A touch record, the item whole.
    Met([u8; ITEM_BYTES]),
    // An event, the item whole.
    Happens([u8; ITEM_BYTES]),
}

// What it comes to, and the trace to go on with.
#[derive(Clone, Copy)]
struct Judged {
    comes: Comes,
    trace: Trace,
}

impl Trace {
    // A trace that has met nothing.
    pub fn new() -> Trace
        ensures { result ≡ new_trace }
    {
        let setup = Setup {
            h1: 0,
            h2: 0,
            flags: 0,
            pages: 0,
            width: 0,
            height: 0,
        };
        let none = Panel::start(setup, &[0u8; 1]);
        Trace {
            stage: Stage::Bare,
            item: items::no_item(),
            have: 0,
            setup,
            records: 0,
            panel: none.panel,
        }
    }

    // Whether a report waits, so that the next step takes no input.
    pub fn is_waiting(self) -> bool
        ensures { result ≡ waits self }
    {
        items::is_started(self.stage) && self.panel.is_waiting()
    }

    // Whether the trace has failed, so that nothing more is printed.
    pub fn is_over(self) -> bool
        ensures { result ≡ is_over self.stage }
    {
        items::is_over(self.stage)
    }

    // Hands over one report, or takes some of the input; writes the lines of it over the front of the room.
    pub fn step(
        self,
        input: &[u8],
        table: &mut [u8],
        words: &mut [u16],
        curves: &mut [u16],
        room: &mut [u8],
    ) -> Stepped
        ensures room_after { steps result table.new (remembering words.new curves.new) room.new ≡ stepping (holds self table.old (remembering words.old curves.old)) input.now room.old }
        ensures count_value { step_said result.answer result.used result.count ≡ said_of_step (holds self table.old (remembering words.old curves.old)) input.now room.old }
    {
        if step::is_lent(table.len(), words.len(), curves.len(), room.len()) {
            let found = front::find(self, input);
            let took = step::take_step(found, table, words, curves, room);
            return Stepped {
                answer: Ok(()),
                used: took.used,
                count: took.count,
                trace: took.trace,
            };
        }
        Stepped {
            answer: Err(LentError::NotLent),
            used: 0,
            count: 0,
            trace: self,
        }
    }

    // The input has ended: writes the last line.
    pub fn end(self, table: &[u8], room: &mut [u8]) -> Ended
        ensures room_after { ends result room.new ≡ ending self table.now room.old }
        ensures count_value { end_said result.answer result.count ≡ said_of_end self table.now room.old }
    {
        if (TABLE_BYTES <= table.len()) & (LEAST_TEXT <= room.len()) {
            return Ended {
                answer: Ok(()),
                count: last::print_end(self, table, room),
            };
        }
        Ended {
            answer: Err(LentError::NotLent),
            count: 0,
        }
    }
}
