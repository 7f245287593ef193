// The panel for bench/panel: a stream of line bytes given 4,096 at a time, all reports asked for, and a sum over them that shows that
// the work was done.
#![tactic(auto)]

ghost use Rattle.std.specs.Prelude.{◌≡◌};
ghost use Rattle.watch.specs.Watched.{none_watched};
ghost use Rattle.commands.specs.Lent.{lending};
ghost use Rattle.panel.specs.Reporting.{enough, reports, reporting};
ghost use Rattle.wire.specs.Bytes.{Bytes};
ghost use Rattle.panel_bench.specs.Stream.{wrapped, weight_of, runs, bench_setup, sums, end_of, streamed};
ghost use Rattle.panel_bench.specs.Inner.{Ready, flow};

use curves::CURVE_WORDS;
use frame::LEAST_ROOM;
use panel::{Handed, LentError, Panel, Reported};
use touch::Setup;
use watch::WatchList;
use wire::WORD_COUNT;

// How many bytes are given at once.
const PIECE: usize = 4096;

// What one report adds to the sum. `as`, since u64 has no From<usize>.
#[tactic(auto, unfolding(crate::specs::Stream::weight_of))]
fn weight(handed: Result<Option<Handed>, LentError>) -> u64
    ensures { result ≡ wrapped (weight_of handed) }
{
    match handed {
        Err(_) | Ok(None) => 0,
        Ok(Some(Handed::BadCheck(command, _))) => u64::from(command),
        Ok(
            Some(
                Handed::Accepted {
                    command,
                    count,
                    replied,
                    ..
                },
            ),
        ) => u64::from(command).wrapping_add((count as u64).wrapping_add(replied as u64)),
    }
}

// Header 5A A5 and checking on; the rest is as small as it may be.
fn bench_setup() -> Setup
    ensures { result ≡ bench_setup }
{
    Setup {
        h1: 0x5A,
        h2: 0xA5,
        flags: 1,
        pages: 1,
        width: 1,
        height: 1,
    }
}

// Words, curve area and room are what the panel asks for; otherwise no report is ever handed over.
// The panel's own test is private to its crate; asked first here, it keeps refusals out of the loop.
#[tactic(auto, unfolding(panel::specs::Reporting::enough))]
fn is_lent(words: usize, curves: usize, room: usize) -> bool
    ensures { result ≡ enough words curves room }
{
    words == WORD_COUNT && curves == CURVE_WORDS && LEAST_ROOM <= room
}

// Asks for a report. No words are watched.
fn ask(panel: Panel, words: &mut [u16], curves: &mut [u16], room: &mut [u8]) -> Reported
    ensures { reports result (lending words.new curves.new room.new none_watched) ≡ reporting panel (lending words.old curves.old room.old none_watched) }
{
    let mut list = WatchList {
        addresses: &[],
        uses: &[],
        values: &mut [],
    };
    panel.report(words, curves, room, &mut list)
}

// Gives the bytes to the panel and asks for each report as soon as it waits.
fn stream_on(
    input: &[u8],
    started: Panel,
    words: &mut [u16],
    curves: &mut [u16],
    room: &mut [u8],
) -> u64
    requires { Ready (runs started (lending words.old curves.old room.old none_watched) 0) × Bytes input.now }
    ensures { sums result (lending words.new curves.new room.new none_watched) ≡ end_of (flow (runs started (lending words.old curves.old room.old none_watched) 0) input.now) }
{
    let mut panel = started;
    let mut sum = 0u64;
    let mut rest = input;
    loop {
        if panel.is_waiting() {
            let reported = ask(panel, words, curves, room);
            sum = sum.wrapping_add(weight(reported.handed));
            panel = reported.panel;
        } else if rest.is_empty() {
            return sum;
        } else {
            let fed = panel.give_bytes(&rest[..rest.len().min(PIECE)]);
            panel = fed.panel;
            rest = &rest[fed.used..];
        }
    }
}

// The whole stream through a new panel. Where words, curve area or room are not what they must be, no report is handed over and all of them stay.
#[unsafe(no_mangle)]
pub extern "C" fn panel_bench_stream(
    input: &[u8],
    words: &mut [u16],
    curves: &mut [u16],
    room: &mut [u8],
) -> u64
    ensures { sums result (lending words.new curves.new room.new none_watched) ≡ streamed input.now (lending words.old curves.old room.old none_watched) }
{
    if !is_lent(words.len(), curves.len(), room.len()) {
        return 0;
    }
    let started = Panel::start(bench_setup(), &[]);
    stream_on(input, started.panel, words, curves, room)
}
