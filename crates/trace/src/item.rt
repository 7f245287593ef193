// The item that a trace gathers, and what comes of one without a word.
ghost use Rattle.std.specs.Prelude.{◌≡◌};
ghost use Rattle.items.specs.Items.{setup_in};
ghost use Rattle.trace.specs.State.{gathering, idle, with_setup};
ghost use Rattle.trace.specs.Inner.{quiet_judged};

use crate::{Comes, Judged, Trace};
use items::{ITEM_BYTES, Stage};

impl Trace {
    // The trace with another item, and how many of its bytes have come.
    pub(crate) fn gather(self, item: [u8; ITEM_BYTES], have: usize) -> Trace
        ensures { result ≡ gathering self item have }
    {
        Trace { item, have, ..self }
    }

    // The trace between two items.
    pub(crate) fn between(self) -> Trace
        ensures { result ≡ idle self }
    {
        self.gather(items::no_item(), 0)
    }

    // The trace is ready with the setup that a whole item carries.
    pub(crate) fn with_setup(self, item: [u8; ITEM_BYTES]) -> Trace
        ensures { result ≡ with_setup self (setup_in item) }
    {
        Trace {
            stage: Stage::Ready,
            setup: items::setup_in(&item),
            ..self
        }
    }
}

// A byte that prints nothing.
pub fn quiet(trace: Trace) -> Judged
    ensures { result ≡ quiet_judged trace }
{
    Judged {
        comes: Comes::Quiet,
        trace,
    }
}
