// A new reader, none, and the inputs that one is given: bytes, one or many, and quiet marks.
ghost use Rattle.std.specs.Prelude.{◌≡◌, [], Err};
ghost use Rattle.frame.specs.Frame.{longest_frame};
ghost use Rattle.reading.specs.Moves.{fresh};
ghost use Rattle.place.specs.declared.Look.TheVariants.{Wait};
ghost use Rattle.line.specs.State.{padded, reader_of, no_reader};
ghost use Rattle.line.specs.Inner.{opened};
ghost use Rattle.line.specs.Methods.{number_of_answer, busy, answer_said, input_said, given_byte, given_mark, given_bytes};

use crate::{Gave, Given, Line, Reader, Waiting, arrays, feed, head, settle};
use frame::{Header, LONGEST_FRAME};
use place::Look;

// Zeros counted as so many bytes held.
fn empty(line: Line, len: usize) -> Reader
    ensures { result ≡ opened line (padded longest_frame []) len Wait }
{
    Reader {
        line,
        held: wire::zeros(),
        len,
        closed: false,
        head: Look::Wait,
    }
}

impl Waiting {
    // 01's number.
    #[tactic(auto, unfolding(crate::specs::Methods::number_of_answer))]
    pub fn number(self) -> u8
        ensures { result ≡ number_of_answer (Err self) }
    {
        match self {
            Waiting::ReportWaits => 1,
        }
    }
}

impl Reader {
    // A reader that holds nothing.
    pub fn new(header: Header, checking: bool) -> Reader
        ensures { result ≡ reader_of (record { header = header; checking = checking }) fresh }
    {
        empty(Line { header, checking }, 0)
    }

    // What stands where there is no reader: full without a report, it takes nothing and hands nothing over.
    pub fn none() -> Reader
        ensures { result ≡ no_reader }
    {
        let line = Line {
            header: Header { h1: 0, h2: 0 },
            checking: false,
        };
        empty(line, LONGEST_FRAME)
    }

    // Whether a report waits, so that no input is taken.
    pub fn is_waiting(self) -> bool
        ensures { result ≡ busy self }
    {
        !head::can_take(self.len, self.head)
    }

    // Gives one byte. A byte and a mark share no more than the test and the call of `settle`: one function for both would ask twice which it is.
    pub fn give_byte(self, b: u8) -> Given
        ensures value { result ≡ given_byte self b }
        ensures answer_value { answer_said result.answer ≡ input_said self }
    {
        let n = self.len;
        if head::can_take(n, self.head) {
            let mut held = self.held;
            held[n] = b;
            let next = settle::settle(self.line, false, &held[..n + 1]);
            Given {
                answer: Ok(()),
                reader: next,
            }
        } else {
            Given {
                answer: Err(Waiting::ReportWaits),
                reader: self,
            }
        }
    }

    // Gives a quiet mark.
    pub fn give_mark(self) -> Given
        ensures value { result ≡ given_mark self }
        ensures answer_value { answer_said result.answer ≡ input_said self }
    {
        if head::can_take(self.len, self.head) {
            // A local, since to lend a part of a reader copies all of it.
            let held = self.held;
            let next = settle::settle(self.line, true, &held[..self.len]);
            Given {
                answer: Ok(()),
                reader: next,
            }
        } else {
            Given {
                answer: Err(Waiting::ReportWaits),
                reader: self,
            }
        }
    }

    // Gives bytes one after the other until one is refused.
    pub fn give_bytes(self, bytes: &[u8]) -> Gave
        ensures { result ≡ given_bytes self bytes.now }
    {
        if self.is_waiting() || bytes.is_empty() {
            return Gave {
                used: 0,
                reader: self,
            };
        }
        let mut held = wire::zeros();
        arrays::put_held(self, 0, self.len, &mut held);
        let fed = feed::feed(self.line, &mut held, self.len, bytes);
        Gave {
            used: fed.used,
            reader: Reader {
                line: self.line,
                held,
                len: fed.rest.len,
                closed: false,
                head: fed.rest.head,
            },
        }
    }
}
