// Which lists are wrong: 16.
ghost use Rattle.std.specs.Prelude.{◌≡◌, length};
ghost use Rattle.watch.specs.Watched.{list_of, address_at, used_at, watching};
ghost use Rattle.watch.specs.Judge.{some_below, is_past_end, share, is_wrong_at, wrong_lengths, wrong_list};

use crate::{MOST_WATCHED, WatchList};
use wire::WORD_COUNT;
use words::WordAddress;

// Whether the three slices are no list of up to 16 entries.
#[tactic(auto, unfolding(crate::specs::Judge::wrong_lengths))]
fn are_wrong_lengths(addresses: usize, uses: usize, values: usize) -> bool
    ensures { result ≡ wrong_lengths addresses uses values }
{
    MOST_WATCHED < addresses || uses != addresses || values != addresses
}

impl WatchList<'_, '_> {
    // The address of an entry's word; past the end, 0.
    pub(crate) fn address_at(&self, i: usize) -> WordAddress
        ensures { result.0 ≡ address_at self.now.addresses.now i }
    {
        WordAddress(self.addresses.get(i).copied().unwrap_or(0))
    }

    // Whether an entry is in use.
    #[tactic(auto, unfolding(crate::specs::Watched::used_at))]
    pub(crate) fn is_used(&self, i: usize) -> bool
        ensures { result ≡ used_at self.now.uses.now i }
    {
        wire::byte_at(self.uses, i) != 0
    }

    // Whether an entry in use has an address past the last word.
    #[tactic(auto, unfolding(crate::specs::Judge::is_past_end))]
    fn is_past_end(&self, i: usize) -> bool
        ensures { result ≡ is_past_end self.now.addresses.now self.now.uses.now i }
    {
        self.is_used(i) && usize::from(self.address_at(i).0) >= WORD_COUNT
    }

    // Whether two entries in use have the same address.
    #[tactic(auto, unfolding(crate::specs::Judge::share))]
    fn do_share(&self, i: usize, j: usize) -> bool
        ensures { result ≡ share self.now.addresses.now self.now.uses.now i j }
    {
        self.is_used(i) && self.is_used(j) && self.address_at(i) == self.address_at(j)
    }

    // Whether an entry shares its word with one before it.
    fn shares_before(&self, i: usize) -> bool
        ensures { result ≡ some_below (share self.now.addresses.now self.now.uses.now i) i }
    {
        (0..i).any(|j| self.do_share(i, j))
    }

    // Whether an entry makes the list wrong.
    #[tactic(auto, unfolding(crate::specs::Judge::is_wrong_at))]
    fn is_wrong_at(&self, i: usize) -> bool
        ensures { result ≡ is_wrong_at self.now.addresses.now self.now.uses.now i }
    {
        self.is_past_end(i) || self.shares_before(i)
    }

    // Whether one of the entries does.
    fn has_wrong(&self) -> bool
        ensures { result ≡ some_below (is_wrong_at self.now.addresses.now self.now.uses.now) (length self.now.addresses.now) }
    {
        (0..self.addresses.len()).any(|i| self.is_wrong_at(i))
    }

    // Whether the list is refused with 16.
    #[tactic(auto, unfolding(crate::specs::Judge::wrong_list))]
    pub fn is_wrong(&self) -> bool
        ensures { result ≡ wrong_list (list_of self.now) }
    {
        are_wrong_lengths(self.addresses.len(), self.uses.len(), self.values.len())
            || self.has_wrong()
    }
}

// Whether a list is refused with 16, for a caller to whom the values last sent are not lent to be written.
#[tactic(auto, unfolding(crate::specs::Judge::wrong_list))]
pub fn is_wrong(addresses: &[u16], uses: &[u8], values: &[u16]) -> bool
    ensures { result ≡ wrong_list (watching addresses.now uses.now values.now) }
{
    let mut none = [0u16; 0];
    let list = WatchList {
        addresses,
        uses,
        values: &mut none,
    };
    are_wrong_lengths(addresses.len(), uses.len(), values.len()) || list.has_wrong()
}
