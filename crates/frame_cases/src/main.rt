// Prints what the frame writer answers, and the check value of the whole room it leaves, around each limit of data and room, with
// checking on and off, for three header pairs. What it must print was worked out by an independent program, tests/frame_model.py.
#![tactic(auto)]

use frame::{Header, WriteError};
use std::array;
use std::io::{self, BufWriter, Write};

const DATA: [usize; 10] = [0, 1, 2, 251, 252, 253, 254, 255, 256, 300];

const ROOMS: [usize; 6] = [0, 7, 264, 265, 266, 300];

const LONGEST: usize = 300;

// Bytes that count up by a step.
fn counting(step: u8) -> [u8; LONGEST] {
    array::from_fn(|i| step.wrapping_mul((i & 0xFF) as u8))
}

// The number of 01, the frame's length and the check value of the room.
fn print_answer<W: Write>(
    out: &mut W,
    n: usize,
    written: Result<usize, WriteError>,
    room: &[u8],
) -> io::Result<()> {
    let (number, length) = match written {
        Ok(n) => (0, n),
        Err(why) => (why.number(), 0),
    };
    let value = check_value::check_value(room);
    writeln!(out, "{n} {} {number} {length} {value:04x}", room.len())
}

fn print_case<W: Write>(
    out: &mut W,
    header: Header,
    checking: bool,
    n: usize,
    m: usize,
) -> io::Result<()> {
    let content = counting(7);
    let mut space = counting(3);
    let content = &content[..n.min(LONGEST)];
    let room = &mut space[..m.min(LONGEST)];
    let written = frame::write_frame(header, checking, (n & 0xFF) as u8, content, room);
    print_answer(out, n, written, room)
}

fn print_header<W: Write>(out: &mut W, header: Header, checking: bool) -> io::Result<()> {
    for n in DATA {
        for m in ROOMS {
            print_case(out, header, checking, n, m)?;
        }
    }
    Ok(())
}

fn main(rt: HostRuntime) -> io::Result<()> {
    let mut out = BufWriter::new(rt.alloc(), io::writer(&rt))?;
    print_header(&mut out, Header { h1: 0x5A, h2: 0xA5 }, true)?;
    print_header(&mut out, Header { h1: 0x5A, h2: 0xA5 }, false)?;
    print_header(&mut out, Header { h1: 0xFF, h2: 0xFF }, true)?;
    print_header(&mut out, Header { h1: 0x00, h2: 0x00 }, false)?;
    out.flush()
}
