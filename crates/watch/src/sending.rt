// The entry that is due to be sent.
ghost use Rattle.std.specs.Prelude.{◌≡◌, length};
ghost use Rattle.std.specs.List.{find, range_with_len};
ghost use Rattle.watch.specs.Watched.{list_of, with_sent, sent_at};
ghost use Rattle.watch.specs.Sending.{is_due, sending, due_said, send_said};

use crate::WatchList;
use words::WordAddress;

impl WatchList<'_, '_> {
    // The value last sent of an entry; past the end, 0.
    fn sent_at(&self, i: usize) -> u16
        ensures { result ≡ sent_at self.now.values.now i }
    {
        self.values.get(i).copied().unwrap_or(0)
    }

    // Whether an entry is in use and its word differs from its value last sent.
    #[tactic(auto, unfolding(crate::specs::Sending::is_due))]
    fn is_due(&self, words: &[u16], i: usize) -> bool
        ensures { result ≡ is_due words.now (list_of self.now) i }
    {
        self.is_used(i) && words::at(words, self.address_at(i)) != self.sent_at(i)
    }

    // The first entry that is due.
    fn first_due(&self, words: &[u16]) -> Option<usize>
        ensures { result ≡ find (is_due words.now (list_of self.now)) (range_with_len 0 (length self.now.addresses.now)) }
    {
        (0..self.addresses.len()).find(|i| self.is_due(words, *i))
    }

    // Finds the first entry that is due, notes its word as sent and answers its address; where none is due, None.
    pub fn send(&mut self, words: &[u16]) -> Option<WordAddress>
        ensures sent { (result ≡ (sending words.now (list_of self.old)).due) × (self.new ≡ with_sent self.old (sending words.now (list_of self.old)).values) }
        ensures result_value { due_said result ≡ send_said words.now (list_of self.old) }
    {
        let i = self.first_due(words)?;
        let address = self.address_at(i);
        self.keep(i, words::at(words, address));
        Some(address)
    }
}
