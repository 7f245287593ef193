// The trend curves of 02, §2: eight channels over a lent area of 8,192 words, and how many numbers each has.
#![tactic(auto)]

ghost use Rattle.std.specs.Prelude.{◌*◌, ◌/◌, ◌≤◌, length};
ghost use Rattle.curves.specs.Area.{channel_count};

mod adding; // what the data of 0x84 does to the channels
mod channel; // what one channel's part becomes
mod counting; // the counts, read and cleared
mod rounds; // the mode byte and the rounds behind it

pub use adding::add;
pub use counting::{cleared, none};
pub use rounds::is_wrong;

// "eight channels"; "its latest 1,024 numbers"; "8,192 lent by the caller".
pub const CHANNEL_COUNT: usize = 8;

pub const CHANNEL_WORDS: usize = 1024;

pub const CURVE_WORDS: usize = 8192;

// How many numbers each channel has. A count past 1,024 means that all words of the channel's part are its numbers.
#[derive(Clone, Copy)]
pub struct Counts {
    pub each: [u16; CHANNEL_COUNT],
}

// The 16-bit numbers behind a mode byte, in so many whole rounds of this size. `place` is no ghost field: it changes with each channel of the same numbers.
#[derive(Clone, Copy)]
struct Numbers<'a> {
    bytes: &'a [u8],
    size: usize,
    rounds: usize,
    ghost small: { size ≤ channel_count },
    ghost few: { rounds ≤ length bytes.now },
    ghost whole: { rounds * size ≤ length bytes.now / 2 },
}
