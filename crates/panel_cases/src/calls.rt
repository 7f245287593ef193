// The panel's calls.
use crate::{Bench, answers, say, script, sums};
use panel::Panel;
use std::io::{self, Read, Write};
use touch::Point;
use watch::WatchList;

// How many bytes may be given at once.
const PIECE: usize = 4096;

impl Bench {
    // A panel that is refused leaves the one before.
    pub fn start<R: Read, W: Write>(&mut self, script: &mut R, out: &mut W) -> io::Result<()> {
        let setup = script::next_setup(script)?;
        let started = Panel::start(setup, self.table.part());
        if started.answer.is_ok() {
            self.panel = started.panel;
        }
        answers::say_start(out, started.answer)
    }

    pub fn give_byte<R: Read, W: Write>(&mut self, script: &mut R, out: &mut W) -> io::Result<()> {
        let fed = self.panel.give_byte(script::next_byte(script)?);
        self.panel = fed.panel;
        answers::say_input(out, "B", fed.answer)
    }

    // More bytes than may be given at once are neither read nor given.
    pub fn give_bytes<R: Read, W: Write>(&mut self, script: &mut R, out: &mut W) -> io::Result<()> {
        let mut bytes = [0u8; PIECE];
        let Some(given) = bytes.get_mut(..script::next_count(script)?) else {
            return Ok(());
        };
        script::fill(script, given)?;
        let fed = self.panel.give_bytes(given);
        self.panel = fed.panel;
        writeln!(out, "G {}", fed.used)
    }

    pub fn give_mark<W: Write>(&mut self, out: &mut W) -> io::Result<()> {
        let fed = self.panel.give_mark();
        self.panel = fed.panel;
        answers::say_input(out, "M", fed.answer)
    }

    pub fn give_second<W: Write>(&mut self, out: &mut W) -> io::Result<()> {
        let fed = self.panel.give_second();
        self.panel = fed.panel;
        answers::say_input(out, "P", fed.answer)
    }

    pub fn ask<W: Write>(&mut self, out: &mut W) -> io::Result<()> {
        let reported = self.panel.report(
            self.words.part_mut(),
            self.curves.part_mut(),
            self.room.part_mut(),
            &mut WatchList {
                addresses: self.addresses.part(),
                uses: self.uses.part(),
                values: self.values.part_mut(),
            },
        );
        self.panel = reported.panel;
        answers::say_reported(out, &reported, &self.room.all)?;
        self.say_left(out)
    }

    pub fn contact<R: Read, W: Write>(&mut self, script: &mut R, out: &mut W) -> io::Result<()> {
        let point = Point {
            x: script::next_word(script)?,
            y: script::next_word(script)?,
        };
        let contacted = self.panel.contact(
            self.table.part(),
            self.words.part_mut(),
            self.room.part_mut(),
            &mut WatchList {
                addresses: self.addresses.part(),
                uses: self.uses.part(),
                values: self.values.part_mut(),
            },
            point,
        );
        self.panel = contacted.panel;
        answers::say_contacted(out, contacted.answer, &self.room.all, contacted.written)?;
        self.say_left(out)
    }

    pub fn lift<W: Write>(&mut self, out: &mut W) -> io::Result<()> {
        let lifted = self.panel.lift();
        self.panel = lifted.panel;
        answers::say_lift(out, lifted.answer)
    }

    // What an ask or a contact left: a sum over the whole room, and the values last sent that were lent.
    fn say_left<W: Write>(&self, out: &mut W) -> io::Result<()> {
        let sum = sums::of_bytes(&self.room.all);
        writeln!(out, " room {sum} values{}", say::words(self.values.part()))
    }
}
