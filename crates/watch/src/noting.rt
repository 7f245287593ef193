// What a line write notes.
ghost use Rattle.std.specs.Prelude.{◌≡◌, set};
ghost use Rattle.watch.specs.Watched.{list_of, with_sent};
ghost use Rattle.watch.specs.Noting.{in_run, is_noted, noted};

use crate::WatchList;
use words::WordAddress;

// Whether a word lies in the run of n words from the first on.
#[tactic(auto, unfolding(crate::specs::Noting::in_run))]
fn is_in_run(first: WordAddress, n: usize, address: WordAddress) -> bool
    ensures { result ≡ in_run first.0 n address.0 }
{
    let a = usize::from(address.0);
    let f = usize::from(first.0);
    // No range: f + n may pass the greatest usize.
    f <= a && a - f < n
}

impl WatchList<'_, '_> {
    // Whether an entry is in use and its word lies in the run.
    #[tactic(auto, unfolding(crate::specs::Noting::is_noted))]
    fn is_noted(&self, first: WordAddress, n: usize, i: usize) -> bool
        ensures { result ≡ is_noted self.now.addresses.now self.now.uses.now first.0 n i }
    {
        self.is_used(i) && is_in_run(first, n, self.address_at(i))
    }

    // Notes a value as the one last sent of entry i; past the end, nothing.
    pub(crate) fn keep(&mut self, i: usize, value: u16)
        ensures { self.new ≡ with_sent self.old (set self.old.values.now i value) }
    {
        // by index, since behind `get_mut` the check knows no element of a slice: tried, and it didn't close
        if i < self.values.len() {
            self.values[i] = value;
        }
    }

    // Notes the word of each entry in use that lies in the run of n words from the first on; the words are as the write left them.
    #[tactic(auto, using(crate::proofs::Noted::one_more), unfolding(crate::specs::Noting::noted, crate::specs::Noting::noted_below))]
    pub fn note(&mut self, words: &[u16], first: WordAddress, n: usize)
        ensures { self.new ≡ with_sent self.old (noted words.now (list_of self.old) first.0 n) }
    {
        for i in 0..self.addresses.len() {
            if self.is_noted(first, n, i) {
                self.keep(i, words::at(words, self.address_at(i)));
            }
        }
    }
}
