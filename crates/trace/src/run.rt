// Line bytes that follow each other, given to the panel at once.
ghost use Rattle.std.specs.Prelude.{◌≡◌, ◌≤◌, length};
ghost use Rattle.panel.specs.Inputs.{fed_bytes};
ghost use Rattle.trace.specs.Steps.{longest_run, ran_bytes};

use crate::{Took, Trace};
use items::Stage;
use panel::{FedBytes, Panel};

// How many line bytes go to the panel at once; `longest_run` in specs/.
pub(crate) const LONGEST_RUN: usize = 256;

// Gives the bytes of a run to a panel.
fn feed_run(panel: Panel, bytes: &[u8]) -> FedBytes
    requires { length bytes.now ≤ longest_run }
    ensures { (result ≡ fed_bytes panel bytes.now) × (result.used ≤ longest_run) }
{
    panel.give_bytes(bytes)
}

// Gives a run to the trace's panel; each byte of it is two of the input.
pub(crate) fn give_run(trace: Trace, bytes: &[u8]) -> Took
    requires { length bytes.now ≤ longest_run }
    ensures { result ≡ ran_bytes trace bytes.now }
{
    let fed = feed_run(trace.panel, bytes);
    Took {
        trace: Trace {
            stage: Stage::Started,
            panel: fed.panel,
            ..trace
        },
        used: fed.used * 2,
        count: 0,
    }
}
