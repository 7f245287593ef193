// The records met before the first event, kept in the lent table.
ghost use Rattle.std.specs.Prelude.{◌≡◌, ◌*◌, ◌≤◌, length};
ghost use Rattle.trace.specs.Events.{record_put};
ghost use Rattle.items.specs.Records.{table_bytes, record_counted};
ghost use Rattle.trace.specs.State.{with_records};
ghost use Rattle.trace.specs.Inner.{quietly};

use crate::{Trace, TracePrinted};
use items::{ITEM_BYTES, KEPT_RECORDS};
use touch::RECORD_BYTES;

// Lays the record that an item of kind 05 carries behind those in the table.
fn put(records: usize, item: [u8; ITEM_BYTES], table: &mut [u8])
    requires { table_bytes ≤ length table.old }
    ensures { table.new ≡ record_put records item table.old }
{
    if records < KEPT_RECORDS {
        let at = records * RECORD_BYTES;
        table[at..at + RECORD_BYTES].copy_from_slice(&item[1..]);
    }
}

// The trace has met the record that a whole item carries.
pub(crate) fn met(trace: Trace, item: [u8; ITEM_BYTES], table: &mut [u8]) -> TracePrinted
    requires { table_bytes ≤ length table.old }
    ensures { (result ≡ quietly (with_records trace (record_counted trace.records))) × (table.new ≡ record_put trace.records item table.old) }
{
    put(trace.records, item, table);
    TracePrinted {
        trace: Trace {
            records: items::one_more(trace.records),
            ..trace
        },
        count: 0,
    }
}
