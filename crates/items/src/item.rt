// One item: its kind, and the body whose length the kind fixes.
ghost use Rattle.std.specs.Prelude.{◌≡◌, set};
ghost use Rattle.wire.specs.ByteOrder.{byte_at};
ghost use Rattle.items.specs.Items.{no_item, setup_in};

use crate::ITEM_BYTES;
use touch::Setup;

// What is gathered between two items.
#[tactic(auto, unfolding(crate::specs::Items::no_item))]
pub fn no_item() -> [u8; ITEM_BYTES]
    ensures { result ≡ no_item }
{
    wire::zeros()
}

// The kind of an item. A function of its own, since an array that is indexed among lent slices makes the check long.
pub fn kind_of(item: [u8; ITEM_BYTES]) -> u8
    ensures { result ≡ byte_at item 0 }
{
    item[0]
}

// An array with one byte set, where it has that place.
pub fn with_byte(mut item: [u8; ITEM_BYTES], at: usize, b: u8) -> [u8; ITEM_BYTES]
    ensures { result ≡ set item at b }
{
    // No `get_mut`: tried, nothing is known of an array that was lent by it.
    if at < ITEM_BYTES {
        item[at] = b;
    }
    item
}

// The setup that an item of kind 00 carries.
#[tactic(auto, unfolding(crate::specs::Items::setup_in))]
pub fn setup_in(item: &[u8]) -> Setup
    ensures { result ≡ setup_in item.now }
{
    Setup {
        h1: wire::byte_at(item, 1),
        h2: wire::byte_at(item, 2),
        flags: wire::byte_at(item, 3),
        pages: wire::word_at(item, 4),
        width: wire::word_at(item, 6),
        height: wire::word_at(item, 8),
    }
}
