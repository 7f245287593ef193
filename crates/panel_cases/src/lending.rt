// What is lent to the panel, and the calls that change it from there on or write a title; none of them is one of the panel's.
use crate::{Bench, script};
use std::io::{self, Read, Write};

// Room for any title, whose length is one byte.
const TITLE: usize = 256;

// An array, and how much of it is lent: as much as the script says, where there is so much.
#[derive(Clone, Copy)]
pub struct Lent<T, const N: usize> {
    pub all: [T; N],
    pub wanted: usize,
}

impl<T: Copy, const N: usize> Lent<T, N> {
    pub fn new(value: T, wanted: usize) -> Lent<T, N> {
        Lent {
            all: [value; N],
            wanted,
        }
    }

    pub fn part(&self) -> &[T] {
        &self.all[..self.wanted.min(N)]
    }

    pub fn part_mut(&mut self) -> &mut [T] {
        let n = self.wanted.min(N);
        &mut self.all[..n]
    }

    // Past the end nothing is set.
    fn set(&mut self, at: usize, value: T) {
        if let Some(element) = self.all.get_mut(at) {
            *element = value;
        }
    }
}

pub fn title<R: Read, W: Write>(script: &mut R, out: &mut W) -> io::Result<()> {
    let mut text = [0u8; TITLE];
    let text = &mut text[..usize::from(script::next_byte(script)?)];
    script::fill(script, text)?;
    write!(out, "# ")?;
    out.write_all(text)?;
    writeln!(out)
}

// A word of the variable words, or of the curve area.
pub fn set_word<R: Read, const N: usize>(
    words: &mut Lent<u16, N>,
    script: &mut R,
) -> io::Result<()> {
    let at = script::next_count(script)?;
    words.set(at, script::next_word(script)?);
    Ok(())
}

impl Bench {
    pub fn lend_table<R: Read>(&mut self, script: &mut R) -> io::Result<()> {
        let n = script::next_count(script)?;
        if let Some(room) = self.table.all.get_mut(..n) {
            script::fill(script, room)?;
        }
        self.table.wanted = n;
        Ok(())
    }

    pub fn lend<R: Read>(&mut self, script: &mut R) -> io::Result<()> {
        self.words.wanted = script::next_count(script)?;
        self.curves.wanted = script::next_count(script)?;
        self.room.wanted = script::next_count(script)?;
        Ok(())
    }

    // How many numbers of each slice of the watch list are lent.
    pub fn lend_list<R: Read>(&mut self, script: &mut R) -> io::Result<()> {
        self.addresses.wanted = script::next_small(script)?;
        self.uses.wanted = script::next_small(script)?;
        self.values.wanted = script::next_small(script)?;
        Ok(())
    }

    // An entry of the watch list.
    pub fn set_entry<R: Read>(&mut self, script: &mut R) -> io::Result<()> {
        let i = script::next_small(script)?;
        self.addresses.set(i, script::next_word(script)?);
        self.uses.set(i, script::next_byte(script)?);
        self.values.set(i, script::next_word(script)?);
        Ok(())
    }
}
