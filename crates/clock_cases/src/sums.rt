// The check value of a run of bytes: their polynomial at 16,807, modulo the prime 2^31 - 1. 16,807 is a primitive root of that prime, so that its powers
// differ: another byte at one place always gives another value, and so do two different bytes that change places.
ghost use Rattle.std.specs.Prelude.{◌<◌};

use clock::{Date, Moment};

pub const NONE: u64 = 0;

// The value with one byte more.
pub fn with_byte(value: u64, b: u8) -> u64
    ensures { result < 2147483647 }
{
    (value % 2147483647 * 16807 + u64::from(b)) % 2147483647
}

fn with_bytes(value: u64, bytes: &[u8]) -> u64 {
    bytes.iter().copied().fold(value, with_byte)
}

// The value with a day of a year more.
pub fn with_day(value: u64, date: Date) -> u64
    ensures { result < 2147483647 }
{
    with_byte(with_bytes(value, &[date.month, date.day]), date.weekday())
}

// The value with the seven bytes more that show a moment.
pub fn with_moment(value: u64, m: Moment) -> u64 {
    with_bytes(value, &clock::shown(m))
}
