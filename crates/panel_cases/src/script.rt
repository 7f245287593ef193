// Reading the script.
use std::io::{self, ErrorKind, Read};
use touch::Setup;

// Fills a room from the script. Past the end of it the room stays as it is.
pub fn fill<R: Read>(script: &mut R, room: &mut [u8]) -> io::Result<()> {
    match script.read_exact(room) {
        Err(e) if e.kind() != ErrorKind::UnexpectedEof => Err(e),
        _ => Ok(()),
    }
}

// Past the end of the script there are only zeros.
pub fn next_byte<R: Read>(script: &mut R) -> io::Result<u8> {
    let mut one = [0u8; 1];
    fill(script, &mut one)?;
    Ok(one[0])
}

pub fn next_word<R: Read>(script: &mut R) -> io::Result<u16> {
    let high = next_byte(script)?;
    let low = next_byte(script)?;
    Ok(u16::from_be_bytes([high, low]))
}

// A number of one byte, and one of two, as a count or an index.
pub fn next_small<R: Read>(script: &mut R) -> io::Result<usize> {
    Ok(usize::from(next_byte(script)?))
}

pub fn next_count<R: Read>(script: &mut R) -> io::Result<usize> {
    Ok(usize::from(next_word(script)?))
}

pub fn next_setup<R: Read>(script: &mut R) -> io::Result<Setup> {
    Ok(Setup {
        h1: next_byte(script)?,
        h2: next_byte(script)?,
        flags: next_byte(script)?,
        pages: next_word(script)?,
        width: next_word(script)?,
        height: next_word(script)?,
    })
}
