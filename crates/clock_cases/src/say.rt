// How a moment is written.
use clock::Moment;
use std::fmt;

// A moment as the seven bytes that show it, in hex digits, a space before each. The other programs of cases write other things so, and a crate
// for this loop would be longer.
#[derive(Clone, Copy)]
pub struct Shown(pub Moment);

impl fmt::Display for Shown {
    fn fmt<W: fmt::Write>(&self, f: &mut fmt::Formatter<W>) -> fmt::Result {
        for b in clock::shown(self.0) {
            write!(f, " {b:02x}")?;
        }
        Ok(())
    }
}
