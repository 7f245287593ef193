// How 01's multi-byte numbers stand in bytes, and how a run of bytes is laid over the front of a lent room.
// Numbers that go high byte first are read and written here alone; the check value, which goes low byte first, by frame and place.
#![tactic(auto)]

ghost use Rattle.std.specs.Prelude.{◌≡◌, replicate};
ghost use Rattle.wire.specs.ByteOrder.{high_byte, low_byte, word, byte_at, word_at};

// 01: "There are 256 register bytes and 28,672 variable words, 0x0000 to 0x6FFF"; `register_count` and `word_count` in specs/.
pub const REGISTER_COUNT: usize = 256;

pub const WORD_COUNT: usize = 28672;

// An array of zeros, by its length: a room that nothing has been laid in.
pub fn zeros<const N: usize>() -> [u8; N]
    ensures { result ≡ replicate N 0 }
{
    [0; N]
}

// The first of the two bytes of a number that goes high byte first.
pub fn high_byte(w: u16) -> u8
    ensures { result ≡ high_byte w }
{
    let [high, _] = w.to_be_bytes();
    high
}

// The second of them.
pub fn low_byte(w: u16) -> u8
    ensures { result ≡ low_byte w }
{
    let [_, low] = w.to_be_bytes();
    low
}

// The number whose two bytes these are.
pub fn word(high: u8, low: u8) -> u16
    ensures { result ≡ word high low }
{
    u16::from_be_bytes([high, low])
}

// The byte at a place; past the end, 0.
pub fn byte_at(bytes: &[u8], at: usize) -> u8
    ensures { result ≡ byte_at bytes.now at }
{
    bytes.get(at).copied().unwrap_or(0)
}

// The number that stands high byte first at a place; bytes past the end count as 0.
pub fn word_at(bytes: &[u8], at: usize) -> u16
    ensures { result ≡ word_at bytes.now at }
{
    match bytes.get(at) {
        Some(high) => word(*high, byte_at(bytes, at + 1)),
        None => 0,
    }
}
