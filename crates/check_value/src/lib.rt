// The check value of 01, "Frame", worked out from its formula, as 02, §3, asks. There is no table here, and none in what the compiler makes of
// it: tests/no_tables.py looks.
#![tactic(auto)]

ghost use Rattle.std.specs.Prelude.{◌≡◌, ◌*◌};
ghost use Rattle.check_value.specs.CheckValue.{byte_step, check_from, check_value};
ghost use Rattle.check_value.specs.Formula.{parity};

// C001 where the parity of x is odd, else 0.
#[tactic(auto, unfolding(crate::specs::Formula::parity))]
fn where_odd(x: u16) -> u16
    ensures { result ≡ parity x * 0xC001 }
{
    (x.count_ones() % 2) as u16 * 0xC001
}

// Reads one byte on from a value, by the formula.
fn read_byte(value: u16, byte: u8) -> u16
    ensures { result ≡ byte_step value byte }
{
    let x = (value ^ u16::from(byte)) & 255;
    (value >> 8) ^ (x << 6) ^ (x << 7) ^ where_odd(x)
}

// Reads two bytes on at once: the formula of eight bits, used twice over, put together for sixteen. It costs hardly more than that of eight.
fn read_two(value: u16, first: u8, second: u8) -> u16
    ensures { result ≡ byte_step (byte_step value first) second }
{
    let x = value ^ wire::word(second, first);
    let high = x >> 2;
    let low = x << 14;
    high ^ (high << 1) ^ low ^ (low >> 2) ^ where_odd(x)
}

// Reads on from a value that was reached before: two bytes at a time, and the one that may be left.
pub fn check_from(value: u16, bytes: &[u8]) -> u16
    ensures { result ≡ check_from value bytes.now }
{
    let (pairs, last) = bytes.as_chunks::<2>();
    let reached = pairs.iter().fold(
        value,
        |reached, [first, second]| read_two(reached, *first, *second),
    );
    last.iter().copied().fold(reached, read_byte)
}

// The check value of a list of bytes.
#[tactic(auto, unfolding(crate::specs::CheckValue::check_value))]
pub fn check_value(bytes: &[u8]) -> u16
    ensures { result ≡ check_value bytes.now }
{
    check_from(0xFFFF, bytes)
}
