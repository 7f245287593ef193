// Prints the check value of lists of 0 to 300 bytes, of four kinds: all 00, all FF, counting, pseudo-random.
// What it must print was worked out by an independent program, tests/check_value.py.
#![tactic(auto)]

ghost use Rattle.std.specs.Prelude.{◌<◌};

use std::io::{self, BufWriter, Write};

const LONGEST: usize = 300;

// The kinds by the numbers that are printed.
#[derive(Clone, Copy)]
enum Kind {
    Zeros = 0,
    Ones = 1,
    Counting = 2,
    Stirred = 3,
}

// The next of a run of numbers below 2^31.
fn stir(x: u64) -> u64
    ensures { result < 2147483648 }
{
    (x % 2147483648 * 1103515245 + 12345) % 2147483648
}

impl Kind {
    // The byte at place i of a list; x is the number that has been stirred to there.
    fn element(self, i: usize, x: u64) -> u8 {
        match self {
            Kind::Zeros => 0,
            Kind::Ones => 255,
            Kind::Counting => (i & 0xFF) as u8,
            Kind::Stirred => (x >> 16 & 0xFF) as u8,
        }
    }

    fn fill(self, list: &mut [u8]) {
        let mut x = list.len() as u64;
        for (i, b) in list.iter_mut().enumerate() {
            x = stir(x);
            *b = self.element(i, x);
        }
    }
}

fn print_kind<W: Write>(out: &mut W, kind: Kind) -> io::Result<()> {
    let mut space = [0u8; LONGEST];
    for n in 0..=LONGEST {
        let list = &mut space[..n];
        kind.fill(list);
        let value = check_value::check_value(list);
        writeln!(out, "{} {n} {value:04x}", kind as u8)?;
    }
    Ok(())
}

fn main(rt: HostRuntime) -> io::Result<()> {
    let mut out = BufWriter::new(rt.alloc(), io::writer(&rt))?;
    for kind in [Kind::Zeros, Kind::Ones, Kind::Counting, Kind::Stirred] {
        print_kind(&mut out, kind)?;
    }
    out.flush()
}
