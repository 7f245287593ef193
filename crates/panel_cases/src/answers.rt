// Writing what a call answers, by 01's numbers.
use crate::say::{bytes, part};
use commands::Refusal;
use line::Waiting;
use panel::{ContactError, Handed, LiftError, Reported, StartError};
use std::io::{self, Write};

pub fn say_start<W: Write>(out: &mut W, answer: Result<(), StartError>) -> io::Result<()> {
    write!(out, "S {}", answer.err().map_or(0, StartError::number))?;
    if let Err(StartError::WrongRecord(i)) = answer {
        write!(out, " {i}")?;
    }
    writeln!(out)
}

// An input by its letter, and what it is answered.
pub fn say_input<W: Write>(
    out: &mut W,
    letter: &str,
    answer: Result<(), Waiting>,
) -> io::Result<()> {
    let number = answer.err().map_or(0, Waiting::number);
    writeln!(out, "{letter} {number}")
}

pub fn say_lift<W: Write>(out: &mut W, answer: Result<(), LiftError>) -> io::Result<()> {
    writeln!(out, "U {}", answer.err().map_or(0, LiftError::number))
}

// An ask. Acknowledgement and reply stand in the room, one behind the other.
pub fn say_reported<W: Write>(out: &mut W, reported: &Reported, room: &[u8]) -> io::Result<()> {
    write!(out, "? ")?;
    match reported.handed {
        Err(why) => write!(out, "{}", why.number()),
        Ok(None) => write!(out, "nothing"),
        Ok(Some(Handed::BadCheck(command, acknowledged))) => {
            let acknowledgement = bytes(part(room, 0, acknowledged));
            write!(out, "B {command:02x} acknowledgement{acknowledgement}")
        }
        Ok(
            Some(
                Handed::Accepted {
                    command,
                    count,
                    outcome,
                    acknowledged,
                    replied,
                },
            ),
        ) => {
            let number = outcome.err().map_or(0, Refusal::number);
            let given = bytes(part(&reported.payload, 0, count));
            write!(out, "F {command:02x} {number} data{given}")?;
            let acknowledgement = bytes(part(room, 0, acknowledged));
            let reply = bytes(part(room, acknowledged, replied));
            write!(out, " acknowledgement{acknowledgement} reply{reply}")
        }
    }
}

// A contact, and the unasked reply that it wrote to the room.
pub fn say_contacted<W: Write>(
    out: &mut W,
    answer: Result<(), ContactError>,
    room: &[u8],
    written: usize,
) -> io::Result<()> {
    write!(out, "C {}", answer.err().map_or(0, ContactError::number))?;
    if let Err(ContactError::WrongRecord(i)) = answer {
        write!(out, " {i}")?;
    }
    write!(out, " written {written}{}", bytes(part(room, 0, written)))
}
