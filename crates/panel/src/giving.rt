// Line bytes, quiet marks and seconds: the panel takes them, or refuses them while a report waits.
ghost use Rattle.std.specs.Prelude.{◌≡◌};
ghost use Rattle.line.specs.Methods.{busy, answer_said, input_said};
ghost use Rattle.panel.specs.Inputs.{fed_by, fed_byte, fed_mark, fed_second, fed_bytes};

use crate::{Fed, FedBytes, Panel};
use line::{Given, Waiting};

impl Panel {
    // The reader took an input or refused it; nothing else of the panel changes.
    #[inline(always)]
    fn fed_by(self, given: Given) -> Fed
        ensures { result ≡ fed_by self given }
    {
        Fed {
            answer: given.answer,
            panel: Panel {
                reader: given.reader,
                ..self
            },
        }
    }

    // Gives a line byte.
    pub fn give_byte(self, b: u8) -> Fed
        ensures value { result ≡ fed_byte self b }
        ensures answer_value { answer_said result.answer ≡ input_said self.reader }
    {
        self.fed_by(self.reader.give_byte(b))
    }

    // Gives a quiet mark.
    pub fn give_mark(self) -> Fed
        ensures value { result ≡ fed_mark self }
        ensures answer_value { answer_said result.answer ≡ input_said self.reader }
    {
        self.fed_by(self.reader.give_mark())
    }

    // Gives a second: the clock advances. It is no mark, and what is half read stays.
    pub fn give_second(self) -> Fed
        ensures value { result ≡ fed_second self }
        ensures answer_value { answer_said result.answer ≡ input_said self.reader }
    {
        if self.is_waiting() {
            return Fed {
                answer: Err(Waiting::ReportWaits),
                panel: self,
            };
        }
        Fed {
            answer: Ok(()),
            panel: Panel {
                registers: self.registers.second_passed(),
                ..self
            },
        }
    }

    // Gives line bytes one after the other until one is refused.
    pub fn give_bytes(self, bytes: &[u8]) -> FedBytes
        ensures { result ≡ fed_bytes self bytes.now }
    {
        let given = self.reader.give_bytes(bytes);
        FedBytes {
            used: given.used,
            panel: Panel {
                reader: given.reader,
                ..self
            },
        }
    }

    // Whether a report waits, so that inputs are refused.
    pub fn is_waiting(self) -> bool
        ensures { result ≡ busy self.reader }
    {
        self.reader.is_waiting()
    }
}
