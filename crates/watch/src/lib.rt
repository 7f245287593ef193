// The watched words of 02, §4: a lent list of addresses, uses (00 where an entry is not in use) and values last sent.
#![tactic(auto)]

mod judging; // 16
mod noting; // what a line write notes
mod sending; // the entry that is due

pub use judging::is_wrong;

// "a list of up to 16 watched words"
pub const MOST_WATCHED: usize = 16;

// The list as it is lent: entry i is what stands at place i of each slice; a place past a slice's end reads 0. Three slices and no slice of entries, since
// `is_wrong` promises 16 where they differ in length, and tests/watch_lists.py tries it.
#[derive(Drop)]
pub struct WatchList<'s, 'v> {
    pub addresses: &'s [u16],
    pub uses: &'s [u8],
    pub values: &'v mut [u16],
}
