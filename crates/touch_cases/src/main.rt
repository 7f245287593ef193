// Runs cases from standard input through `touch`, and writes a line for each: the case's label and what the library answers.
// A case is its kind (1 byte), the length of its label (1) and of its table (2), a setup (9), page, x, y and an old word (2 each),
// then label and table. Numbers of two bytes go high byte first. The program ends at a cut case or a table over 8,192 bytes.
#![tactic(auto)]

use std::io::{self, BufReader, BufWriter, ErrorKind, Read, Write};
use touch::{Point, Record, Setup, TableError};

const HEAD: usize = 21;

const ROOM: usize = 8192;

fn setup_of(head: &[u8; HEAD]) -> Setup {
    Setup {
        h1: head[4],
        h2: head[5],
        flags: head[6],
        pages: wire::word_at(head, 7),
        width: wire::word_at(head, 9),
        height: wire::word_at(head, 11),
    }
}

fn say_setup<W: Write>(out: &mut W, s: Setup) -> io::Result<()> {
    let number = if touch::good_setup(s) { 0 } else { 11 };
    write!(out, "{number}")?;
    if touch::checking(s) {
        write!(out, " checking")?;
    }
    if touch::acknowledging(s) {
        write!(out, " acknowledging")?;
    }
    Ok(())
}

fn say_verdict<W: Write>(out: &mut W, judged: Result<(), TableError>) -> io::Result<()> {
    let Err(why) = judged else {
        return write!(out, "0");
    };
    write!(out, "{}", why.number())?;
    match why {
        TableError::NotRecords => Ok(()),
        TableError::Wrong(i) => write!(out, " {i}"),
    }
}

fn say_found<W: Write>(out: &mut W, found: Option<(usize, Record)>) -> io::Result<()> {
    let Some((i, r)) = found else {
        return write!(out, "none");
    };
    write!(out, "{i}")?;
    if touch::is_slider(r) {
        write!(out, " caught")?;
    }
    if touch::no_next(r) {
        write!(out, " stays")?;
    }
    Ok(())
}

// What the library answers to a case.
fn answer<W: Write>(out: &mut W, head: &[u8; HEAD], table: &[u8]) -> io::Result<()> {
    let s = setup_of(head);
    let page = wire::word_at(head, 13);
    let point = Point {
        x: wire::word_at(head, 15),
        y: wire::word_at(head, 17),
    };
    let old = wire::word_at(head, 19);
    let first = touch::record_of(table);
    match head[0] {
        0 => say_setup(out, s),
        1 => say_verdict(out, touch::judge(s, table)),
        2 => say_found(out, touch::find(table, page, point)),
        3 => write!(out, "{:04x}", touch::acted(s, first, old, point)),
        _ => write!(out, "{:04x}", touch::dragged(s, first, old, point)),
    }
}

// Fills a room from the input, or says that there is not so much.
fn is_filled<R: Read>(input: &mut R, room: &mut [u8]) -> io::Result<bool> {
    match input.read_exact(room) {
        Ok(()) => Ok(true),
        Err(e) if e.kind() == ErrorKind::UnexpectedEof => Ok(false),
        Err(e) => Err(e),
    }
}

// Reads a case and writes its label and the answer, or says that there is none.
fn is_shown<R: Read, W: Write>(input: &mut R, out: &mut W) -> io::Result<bool> {
    let mut head = [0u8; HEAD];
    let mut label = [0u8; 256];
    let mut table = [0u8; ROOM];
    if !is_filled(input, &mut head)? {
        return Ok(false);
    }
    let label = &mut label[..usize::from(head[1])];
    let Some(table) = table.get_mut(..usize::from(wire::word_at(&head, 2))) else {
        return Ok(false);
    };
    if !is_filled(input, label)? || !is_filled(input, table)? {
        return Ok(false);
    }
    out.write_all(label)?;
    write!(out, ": ")?;
    answer(out, &head, table)?;
    writeln!(out)?;
    Ok(true)
}

// A proved loop has to end, and nothing says that the input does. So the loop counts its turns, to a number that no run comes to.
fn main(rt: HostRuntime) -> io::Result<()> {
    let mut input = BufReader::new(rt.alloc(), rt.reader())?;
    let mut out = BufWriter::new(rt.alloc(), io::writer(&rt))?;
    for _ in 0..u64::MAX {
        if !is_shown(&mut input, &mut out)? {
            break;
        }
    }
    out.flush()
}
