// What stands in the panel, in the words and in the curve area.
use crate::say::{self, AllRegisters};
use crate::{Bench, script, sums};
use clock::Moment;
use curves::CHANNEL_WORDS;
use registers::RegisterAddress;
use std::io::{self, Read, Write};

impl Bench {
    pub fn show_register<R: Read, W: Write>(&self, script: &mut R, out: &mut W) -> io::Result<()> {
        let address = script::next_byte(script)?;
        let value = self.panel.register(RegisterAddress(address));
        writeln!(out, "R {address:02x} {value:02x}")
    }

    pub fn show_word<R: Read, W: Write>(&self, script: &mut R, out: &mut W) -> io::Result<()> {
        let address = script::next_word(script)?;
        write!(out, "V {address:04x}")?;
        if let Some(word) = self.words.all.get(usize::from(address)) {
            write!(out, " {word:04x}")?;
        }
        writeln!(out)
    }

    pub fn show_all<W: Write>(&self, out: &mut W) -> io::Result<()> {
        let panel = self.panel;
        let page = panel.page();
        let backlight = panel.backlight();
        let buzzer = panel.buzzer();
        let sum = sums::of_words(&self.words.all);
        write!(out, "D{} page {page:04x}", AllRegisters(panel))?;
        writeln!(
            out,
            " backlight {backlight:02x} buzzer {buzzer:02x} words {sum}"
        )
    }

    // The moment of the clock, in numbers: year, month, day, weekday, hour, minute, second.
    pub fn show_moment<W: Write>(&self, out: &mut W) -> io::Result<()> {
        let Moment { date, time } = self.panel.moment();
        let year = 2000 + usize::from(date.year);
        let weekday = date.weekday();
        write!(out, "I {year} {} {} {weekday}", date.month, date.day)?;
        writeln!(out, " {} {} {}", time.hour, time.minute, time.second)
    }

    // A channel's first words, as many as were added.
    pub fn show_channel<R: Read, W: Write>(&self, script: &mut R, out: &mut W) -> io::Result<()> {
        let channel = script::next_byte(script)?;
        let at = usize::from(channel);
        let n = self.panel.curve_count(at);
        let held = say::part(&self.curves.all, at * CHANNEL_WORDS, usize::from(n));
        let sum = sums::of_words(&self.curves.all);
        writeln!(
            out,
            "N {channel:02x} count {n}{} area {sum}",
            say::words(held)
        )
    }
}
