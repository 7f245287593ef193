// The variable words of 01, addressed by word and lent by the caller.
#![tactic(auto)]

ghost use Rattle.std.specs.Prelude.{◌≡◌, ◌+◌, ◌/◌, ◌≤◌, ltb, length};
ghost use Rattle.wire.specs.Room.{over, lays};
ghost use Rattle.words.specs.Words.{word_at_address, word_set, words_of, bytes_of, words_written, words_laid};

// An address of a word. It cannot stand where a register's address is meant, nor the other way round.
#[derive(Clone, Copy, PartialEq, Eq)]
pub struct WordAddress(pub u16);

impl WordAddress {
    // A run of n words from here on passes the end of so many.
    pub fn passes_end(self, n: usize, end: usize) -> bool
        ensures { result ≡ ltb end (self.0 + n) }
    {
        let a = usize::from(self.0);
        end < a || end - a < n
    }
}

// The word at an address; past the end, 0.
#[tactic(auto, unfolding(crate::specs::Words::word_at_address))]
pub fn at(words: &[u16], address: WordAddress) -> u16
    ensures { result ≡ word_at_address words.now address.0 }
{
    words.get(usize::from(address.0)).copied().unwrap_or(0)
}

// Stores a word at an address; past the end, nothing.
#[tactic(auto, unfolding(crate::specs::Words::word_set))]
pub fn set(words: &mut [u16], address: WordAddress, word: u16)
    ensures { words.new ≡ word_set words.old address.0 word }
{
    // by index, since behind `get_mut` the check knows no element of a slice: tried, and it didn't close
    let a = usize::from(address.0);
    if a < words.len() {
        words[a] = word;
    }
}

// Stores the words that the bytes carry in a run of as many.
fn store_run(run: &mut [u16], bytes: &[u8])
    requires { length run.old ≡ length bytes.now / 2 }
    ensures { run.new ≡ words_of bytes.now }
{
    for (i, [high, low]) in bytes.as_chunks::<2>().0.iter().enumerate() {
        run[i] = wire::word(*high, *low);
    }
}

// Stores the words that the bytes carry, high byte first, from the address on; a run that passes the end leaves all as it stood.
pub fn write(words: &mut [u16], address: WordAddress, bytes: &[u8])
    ensures { words.new ≡ words_written words.old address.0 bytes.now }
{
    let n = bytes.len() / 2;
    if address.passes_end(n, words.len()) {
        return;
    }
    let a = usize::from(address.0);
    store_run(&mut words[a..a + n], bytes);
}

// Lays a run of words as bytes over the room's front.
fn lay_run(run: &[u16], room: &mut [u8])
    requires { length run.now + length run.now ≤ length room.old }
    ensures { room.new ≡ over (bytes_of run.now) room.old }
{
    for (i, &word) in run.iter().enumerate() {
        room[i + i] = wire::high_byte(word);
        room[i + i + 1] = wire::low_byte(word);
    }
}

// Lays n words, from the address on, as bytes over the room's front; answers how many bytes. A run that passes the end, or that the
// room does not hold, leaves the room and answers 0.
pub fn read(words: &[u16], address: WordAddress, n: u8, room: &mut [u8]) -> usize
    ensures { lays result room.new ≡ words_laid words.now address.0 n room.old }
{
    let m = usize::from(n);
    if address.passes_end(m, words.len()) || room.len() < m * 2 {
        return 0;
    }
    let a = usize::from(address.0);
    lay_run(&words[a..a + m], room);
    m * 2
}
