// The trace program: reads a trace from standard input to its end and writes the lines that 01 prints for it. What a line says is the
// library's; here words, curve area, table and room for text stand, and bytes go in and out. Where a call of the system fails, one line on standard
// error says so and the program ends with status 2: no E and no X for a trace that was not read to its end or whose lines did not all go out.
#![tactic(auto)]

ghost use Rattle.std.specs.Prelude.{◌≤◌, ◌≡◌, length, take, replicate, IfOk};
ghost use Rattle.wire.specs.Addresses.{word_count};
ghost use Rattle.curves.specs.Area.{curve_words};
ghost use Rattle.telling.specs.Memory.{remembering};
ghost use Rattle.telling.specs.Told.{least_text};
ghost use Rattle.trace.specs.Output.{end_text};
ghost use Rattle.items.specs.Records.{table_bytes};
ghost use Rattle.trace.specs.State.{holds};
ghost use Rattle.panel_trace.specs.Program.{ReadSoFar};

use curves::CURVE_WORDS;
use std::io::Input;
use std::process::ExitCode;
use std::time::Clock;
use std::{fmt, io};
use trace::{TABLE_BYTES, Trace};
use wire::WORD_COUNT;

mod feeding;
mod input;
mod output;
mod trying;

// What filling a room with the lines of an input leaves: how much of the input was taken, and how many bytes of text stand in the room.
#[derive(Clone, Copy)]
struct Filled {
    trace: Trace,
    used: usize,
    count: usize,
}

// Which stream failed, and why.
#[derive(Debug, Drop)]
enum Failure {
    Input(io::Error),
    Output(io::Error),
}

impl fmt::Display for Failure {
    fn fmt<W: fmt::Write>(&self, f: &mut fmt::Formatter<W>) -> fmt::Result {
        match self {
            Failure::Input(why) => write!(f, "standard input: {why}"),
            Failure::Output(why) => write!(f, "standard output: {why}"),
        }
    }
}

// How much is read at once, and how much room the lines have. The room is all the buffer that the output needs.
const PIECE: usize = 65536;

const ROOM: usize = 65536;

// Reads standard input to its end, or until the trace has failed. Table, words, curve area and room go on as `Trace::step` is lent them.
fn read_all(
    rt: &(impl Input + Print + Clock),
    table: &mut [u8],
    words: &mut [u16],
    curves: &mut [u16],
    room: &mut [u8],
) -> Result<Trace, Failure>
    requires { (table.old ≡ replicate table_bytes 0) × (words.old ≡ replicate word_count 0) × (curves.old ≡ replicate curve_words 0) × (least_text ≤ length room.old) }
    ensures { IfOk result (λ trace. ReadSoFar (holds trace table.new (remembering words.new curves.new))) }
{
    let mut input = rt.reader();
    let mut bytes = [0u8; PIECE];
    let mut trace = Trace::new();
    for _ in 0..u64::MAX {
        let n = input::read_some(rt, &mut input, &mut bytes).map_err(Failure::Input)?;
        if n == 0 {
            return Ok(trace);
        }
        feeding::feed(rt, &mut trace, &bytes[..n], table, words, curves, room).map_err(
            Failure::Output,
        )?;
        if trace.is_over() {
            return Ok(trace);
        }
    }
    Err(Failure::Input(trying::run_out()))
}

// Lays the last line over the front of the room, and answers how many bytes it has: none after an X.
fn lay_end(trace: Trace, table: &[u8], room: &mut [u8]) -> usize
    requires { (table_bytes ≤ length table.now) × (least_text ≤ length room.old) }
    ensures upper_bound { result ≤ length room.new }
    ensures room_after { take result room.new ≡ end_text trace table.now }
{
    let ended = trace.end(table, room);
    ended.count
}

// Reads the input and writes all lines, the last too.
fn run(rt: &(impl Input + Print + Clock)) -> Result<(), Failure> {
    let mut table = [0u8; TABLE_BYTES];
    let mut words = [0u16; WORD_COUNT];
    let mut curves = [0u16; CURVE_WORDS];
    let mut room = [0u8; ROOM];
    let trace = read_all(rt, &mut table, &mut words, &mut curves, &mut room)?;
    let n = lay_end(trace, &table, &mut room);
    output::write_text(rt, &room[..n]).map_err(Failure::Output)
}

fn main(rt: HostRuntime) -> ExitCode {
    match run(&rt) {
        Ok(()) => ExitCode::SUCCESS,
        Err(failure) => {
            // A standard error that fails too leaves the status alone to tell.
            let _ = eprintln!(rt; "panel_trace: {failure}");
            ExitCode::from(2)
        }
    }
}
