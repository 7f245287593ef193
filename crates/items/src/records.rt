// How many records have been met, and how long the table of them is.
ghost use Rattle.std.specs.Prelude.{◌≡◌, ◌*◌, ◌≤◌, min};
ghost use Rattle.touch.specs.Table.{record_bytes};
ghost use Rattle.items.specs.Records.{kept_records, table_bytes, record_counted};

use crate::KEPT_RECORDS;
use touch::RECORD_BYTES;

// How long the table of so many records is. One past the longest table shows that there are too many, further ones need not stand in it.
pub fn table_length(records: usize) -> usize
    ensures { (result ≡ min records kept_records * record_bytes) × (result ≤ table_bytes) }
{
    records.min(KEPT_RECORDS) * RECORD_BYTES
}

// The count with one record more. No `min`: a count above the limit stays as it is (`record_counted`).
#[tactic(auto, unfolding(crate::specs::Records::record_counted))]
pub fn one_more(records: usize) -> usize
    ensures { result ≡ record_counted records }
{
    if records < KEPT_RECORDS {
        records + 1
    } else {
        records
    }
}
