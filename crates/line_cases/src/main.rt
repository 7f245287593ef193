// Runs the line reader on the cases of standard input, and prints what it hands over. tests/line_model.py makes the input, and says what
// must be printed. In the input:
//   # to the end of the line: a title, printed as it stands
//   = three hex bytes ; a new reader with that header pair and checking choice
//   a hex byte: given to the reader; printed is 1 where it is refused
//   [ hex bytes ]: given at once; printed is how many were taken
//   | a quiet mark, as a byte
//   ? reports are asked for until there is none: F command and data, B command
#![tactic(auto)]

use frame::{Header, LONGEST_FRAME, MOST_PAYLOAD};
use line::{Reader, Report, Waiting};
use std::io::{self, BufReader, BufWriter, Read, Write};

// More bytes than a chunk has.
const MANY: usize = 512;

// What the bytes that come are for.
#[derive(Clone, Copy)]
enum Mode {
    Single,
    Setup,
    Chunk,
}

#[derive(Clone, Copy)]
struct Cases {
    reader: Reader,
    mode: Mode,
    // Inside a title.
    title: bool,
    // The first digit of a byte, where it has come.
    high: Option<u8>,
    // A setup of fewer than three bytes reads what stood there before: so an array with a count, and no list that is emptied.
    gathered: [u8; MANY],
    n: usize,
}

// Bytes in hex digits, a space before each. The other programs of cases write small letters; a crate for these four lines would be longer.
fn put_hex<W: Write>(out: &mut W, bytes: &[u8]) -> io::Result<()> {
    for b in bytes {
        write!(out, " {b:02X}")?;
    }
    Ok(())
}

fn put_report<W: Write>(
    out: &mut W,
    report: Report,
    payload: &[u8; MOST_PAYLOAD],
) -> io::Result<()> {
    match report {
        Report::Accepted { command, len } => {
            write!(out, "F {command:02X}")?;
            put_hex(out, &payload[..len.min(MOST_PAYLOAD)])?;
            writeln!(out)
        }
        Report::BadCheck(command) => writeln!(out, "B {command:02X}"),
    }
}

fn put_answer<W: Write>(out: &mut W, answer: Result<(), Waiting>) -> io::Result<()> {
    match answer {
        Ok(()) => Ok(()),
        Err(why) => writeln!(out, "{}", why.number()),
    }
}

impl Cases {
    fn new() -> Cases {
        Cases {
            reader: Reader::new(Header { h1: 0, h2: 0 }, false),
            mode: Mode::Single,
            title: false,
            high: None,
            gathered: [0u8; MANY],
            n: 0,
        }
    }

    // A byte that has come whole.
    fn take_byte<W: Write>(&mut self, out: &mut W, b: u8) -> io::Result<()> {
        match self.mode {
            Mode::Single => {
                let given = self.reader.give_byte(b);
                self.reader = given.reader;
                put_answer(out, given.answer)
            }
            Mode::Setup | Mode::Chunk => {
                self.gather(b);
                Ok(())
            }
        }
    }

    fn gather(&mut self, b: u8) {
        if self.n < MANY {
            self.gathered[self.n] = b;
            self.n += 1;
        }
    }

    fn take_digit<W: Write>(&mut self, out: &mut W, x: u8) -> io::Result<()> {
        if let Some(high) = self.high.take() {
            return self.take_byte(out, high << 4 | x);
        }
        self.high = Some(x);
        Ok(())
    }

    // The bytes gathered are a setup.
    fn set_up<W: Write>(&mut self, out: &mut W) -> io::Result<()> {
        let [h1, h2, checking, ..] = self.gathered;
        self.reader = Reader::new(Header { h1, h2 }, checking == 1);
        self.mode = Mode::Single;
        writeln!(out, "= {h1:02X} {h2:02X} {checking:02X}")
    }

    // The bytes gathered are given at once.
    fn give_chunk<W: Write>(&mut self, out: &mut W) -> io::Result<()> {
        let gave = self.reader.give_bytes(&self.gathered[..self.n.min(MANY)]);
        self.reader = gave.reader;
        self.mode = Mode::Single;
        writeln!(out, "[{}", gave.used)
    }

    fn give_mark<W: Write>(&mut self, out: &mut W) -> io::Result<()> {
        let given = self.reader.give_mark();
        self.reader = given.reader;
        put_answer(out, given.answer)
    }

    // No more reports can stand in what is held than the longest frame has bytes.
    fn ask_all<W: Write>(&mut self, out: &mut W) -> io::Result<()> {
        for _ in 0..=LONGEST_FRAME {
            let asked = self.reader.ask();
            self.reader = asked.reader;
            let Some(report) = asked.report else {
                break;
            };
            put_report(out, report, &asked.payload)?;
        }
        Ok(())
    }

    fn begin(&mut self, mode: Mode) {
        self.mode = mode;
        self.n = 0;
    }

    // A character outside titles; all but these are passed over.
    fn take_sign<W: Write>(&mut self, out: &mut W, c: u8) -> io::Result<()> {
        match c {
            b'0'..=b'9' => self.take_digit(out, c - b'0')?,
            b'A'..=b'F' => self.take_digit(out, c - b'A' + 10)?,
            b'=' => self.begin(Mode::Setup),
            b';' => self.set_up(out)?,
            b'[' => self.begin(Mode::Chunk),
            b']' => self.give_chunk(out)?,
            b'|' => self.give_mark(out)?,
            b'?' => self.ask_all(out)?,
            _ => {}
        }
        Ok(())
    }

    fn take_char<W: Write>(&mut self, out: &mut W, c: u8) -> io::Result<()> {
        if self.title || c == b'#' {
            self.title = c != b'\n';
            return out.write_all(&[c]);
        }
        self.take_sign(out, c)
    }
}

fn main(rt: HostRuntime) -> io::Result<()> {
    let input = BufReader::new(rt.alloc(), rt.reader())?;
    let mut out = BufWriter::new(rt.alloc(), io::writer(&rt))?;
    let mut cases = Cases::new();
    for c in input.bytes() {
        cases.take_char(&mut out, c?)?;
    }
    out.flush()
}
