// Runs scripted calls from standard input through `panel`, and writes a line for each: the call's letter, what it answers, and what it left.
// The words, the curve area, the table, the room and the watch list are this program's and are lent at each call. tests/panel_model.py makes the
// script, and says what must be written. A call is a letter and its arguments; numbers of two bytes go high byte first:
//   # length (1), text              a title, written as it stands
//   T length (2), bytes             the table that is lent from here on
//   L words (2), curves (2), room (2)
//                                   how many words, words of the curve area and bytes of room are lent from here on
//   W addresses (1), uses (1), values (1)
//                                   how many numbers of each slice of the watch list are lent from here on
//   E place (1), address (2), use (1), value (2)
//                                   an entry of the watch list that the caller sets
//   K address (2), word (2)         a word that the caller sets
//   H address (2), word (2)         a word of the curve area that the caller sets
//   S setup (9)                     starts a panel; where it is refused the one before goes on
//   B byte                          gives a byte
//   G count (2), bytes              gives bytes
//   M                               gives a mark
//   P                               a second passes
//   ?                               asks for a report: command, number, data, acknowledgement and reply, then what was left
//   C x (2), y (2)                  a contact: its number, how much was written and the bytes, then what was left
//   U                               a lift
//   R address (1)                   a register
//   V address (2)                   a word
//   D                               all registers, the display board's three numbers, and a sum over all words
//   I                               the moment of the clock: year, month, day, weekday, hour, minute and second, decimal
//   N channel (1)                   how many numbers a channel has, as many words of its part, and a sum over the whole curve area
// What was left is a sum over the whole room, and the values last sent that were lent. The program ends at the end of the script.
#![tactic(auto)]

use curves::CURVE_WORDS;
use frame::LEAST_ROOM;
use lending::Lent;
use panel::Panel;
use std::io::{self, BufReader, BufWriter, Read, Write};
use touch::Setup;
use wire::WORD_COUNT;

mod answers;
mod calls;
mod lending;
mod say;
mod script;
mod showing;
mod sums;

const TABLE: usize = 8192;

const WORDS: usize = 28700;

const CURVES: usize = 8200;

const ROOM: usize = 300;

const LISTED: usize = 20;

// The panel, and what is lent at its calls.
#[derive(Drop)]
struct Bench {
    panel: Panel,
    table: Lent<u8, TABLE>,
    words: Lent<u16, WORDS>,
    curves: Lent<u16, CURVES>,
    room: Lent<u8, ROOM>,
    addresses: Lent<u16, LISTED>,
    uses: Lent<u8, LISTED>,
    values: Lent<u16, LISTED>,
}

impl Bench {
    // The first panel, and as much lent as the papers ask for.
    fn new() -> Bench {
        let setup = Setup {
            h1: 0,
            h2: 0,
            flags: 0,
            pages: 1,
            width: 1,
            height: 1,
        };
        Bench {
            panel: Panel::start(setup, b"").panel,
            table: Lent::new(0, 0),
            words: Lent::new(0, WORD_COUNT),
            curves: Lent::new(0xC0DE, CURVE_WORDS),
            room: Lent::new(0xEE, LEAST_ROOM),
            addresses: Lent::new(0, 0),
            uses: Lent::new(0, 0),
            values: Lent::new(0, 0),
        }
    }

    // One call of the script, by its letter.
    fn call<R: Read, W: Write>(
        &mut self,
        letter: u8,
        script: &mut R,
        out: &mut W,
    ) -> io::Result<()> {
        match letter {
            b'#' => lending::title(script, out),
            b'T' => self.lend_table(script),
            b'L' => self.lend(script),
            b'W' => self.lend_list(script),
            b'E' => self.set_entry(script),
            b'K' => lending::set_word(&mut self.words, script),
            b'H' => lending::set_word(&mut self.curves, script),
            b'S' => self.start(script, out),
            b'B' => self.give_byte(script, out),
            b'G' => self.give_bytes(script, out),
            b'M' => self.give_mark(out),
            b'P' => self.give_second(out),
            b'?' => self.ask(out),
            b'C' => self.contact(script, out),
            b'U' => self.lift(out),
            b'R' => self.show_register(script, out),
            b'V' => self.show_word(script, out),
            b'D' => self.show_all(out),
            b'I' => self.show_moment(out),
            b'N' => self.show_channel(script, out),
            _ => Ok(()),
        }
    }
}

// A proved loop has to end, and nothing says that the script does. So the loop counts its turns, to a number that no run comes to.
fn main(rt: HostRuntime) -> io::Result<()> {
    let mut script = BufReader::new(rt.alloc(), rt.reader())?;
    let mut out = BufWriter::new(rt.alloc(), io::writer(&rt))?;
    let mut bench = Bench::new();
    for _ in 0..u64::MAX {
        let letter = script::next_byte(&mut script)?;
        if letter == 0 {
            break;
        }
        bench.call(letter, &mut script, &mut out)?;
    }
    out.flush()
}
