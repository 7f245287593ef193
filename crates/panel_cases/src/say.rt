// How bytes and words are written: in hex digits, a space before each. The other programs of cases write other things so, and a crate for one loop
// would be longer.
use panel::Panel;
use registers::RegisterAddress;
use std::fmt;

#[derive(Clone, Copy)]
pub struct Hex<'a, T, const DIGITS: usize>(&'a [T]);

impl<T: fmt::Radix + Copy, const DIGITS: usize> fmt::Display for Hex<'_, T, DIGITS> {
    fn fmt<W: fmt::Write>(&self, f: &mut fmt::Formatter<W>) -> fmt::Result {
        for x in self.0 {
            write!(f, " {x:0DIGITS$x}")?;
        }
        Ok(())
    }
}

pub fn bytes(bytes: &[u8]) -> Hex<'_, u8, 2> {
    Hex(bytes)
}

pub fn words(words: &[u16]) -> Hex<'_, u16, 4> {
    Hex(words)
}

// All registers of a panel.
#[derive(Clone, Copy)]
pub struct AllRegisters(pub Panel);

impl fmt::Display for AllRegisters {
    fn fmt<W: fmt::Write>(&self, f: &mut fmt::Formatter<W>) -> fmt::Result {
        for address in 0..=u8::MAX {
            let b = self.0.register(RegisterAddress(address));
            write!(f, " {b:02x}")?;
        }
        Ok(())
    }
}

// The n elements of s from a place on; none where s has not so many.
pub fn part<T>(s: &[T], from: usize, n: usize) -> &[T] {
    s.get(from..).and_then(|rest| rest.get(..n)).unwrap_or(&[])
}
