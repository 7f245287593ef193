// The line reader for bench/line: a whole buffer given, all reports asked for, and a sum over them that shows that the work was done.
#![tactic(auto)]

ghost use Rattle.std.specs.Prelude.{◌≡◌};
ghost use Rattle.line_bench.specs.Sum.{wrapped, bench_sum};
ghost use Rattle.line_bench.specs.Inner.{weight_told};

use frame::Header;
use line::{Reader, Report};

// What one report adds to the sum.
fn weight(report: Option<Report>, first: u8) -> u64
    ensures { result ≡ wrapped (weight_told report first) }
{
    match report {
        Some(Report::Accepted { command, len }) => {
            let a = std::num::wrapping_add_u64(65536 + u64::from(command), len as u64);
            std::num::wrapping_add_u64(a, u64::from(first))
        }
        Some(Report::BadCheck(command)) => u64::from(command),
        None => 0,
    }
}

// The bytes given, up to `chunk` a call of give_bytes, or with a chunk of 0 one a call of give_byte; each report is asked for as soon as it waits.
fn sum_of(h1: u8, h2: u8, checking: bool, input: &[u8], chunk: usize) -> u64
    ensures { result ≡ bench_sum (record { h1 = h1; h2 = h2 }) checking input.now }
{
    let mut reader = Reader::new(Header { h1, h2 }, checking);
    let mut sum = 0u64;
    // By an index: over what is left of the input, a slice cut anew at each turn, short frames as rt builds them were read a tenth slower.
    let mut i = 0usize;
    loop {
        if reader.is_waiting() {
            let asked = reader.ask();
            sum = std::num::wrapping_add_u64(sum, weight(asked.report, asked.payload[0]));
            reader = asked.reader;
        } else {
            let left = input.len() - i;
            if left == 0 {
                return sum;
            }
            if chunk == 0 {
                let given = reader.give_byte(input[i]);
                reader = given.reader;
                i += 1;
            } else {
                let gave = reader.give_bytes(&input[i..i + chunk.min(left)]);
                reader = gave.reader;
                i += gave.used;
            }
        }
    }
}

// Up to `chunk` bytes a call.
#[unsafe(no_mangle)]
pub extern "C" fn line_bench_chunks(
    h1: u8,
    h2: u8,
    checking: bool,
    input: &[u8],
    chunk: usize,
) -> u64
    ensures { result ≡ bench_sum (record { h1 = h1; h2 = h2 }) checking input.now }
{
    sum_of(h1, h2, checking, input, chunk)
}

// A byte a call.
#[unsafe(no_mangle)]
pub extern "C" fn line_bench_single(h1: u8, h2: u8, checking: bool, input: &[u8]) -> u64
    ensures { result ≡ bench_sum (record { h1 = h1; h2 = h2 }) checking input.now }
{
    sum_of(h1, h2, checking, input, 0)
}
