// 0x82 and 0x83: write and read variables. What stands in on_registers.rt too stays twice: an address of a register may not reach a word (01), and the
// tests differ in the address's bytes, the end and what a run is.
ghost use Rattle.std.specs.Prelude.{◌≡◌, ◌+◌, ◌≤◌, length, drop, IfOk};
ghost use Rattle.wire.specs.ByteOrder.{byte_at, word_at};
ghost use Rattle.frame.specs.Frame.{most_data};
ghost use Rattle.commands.specs.Outcome.{write_words_outcome, read_words_outcome};
ghost use Rattle.commands.specs.Inner.{outcome_of};
ghost use Rattle.commands.specs.Effect.{leaves_words, words_writing, replies, words_replying};

use crate::{Fixed, Performed, READ_WORDS, Refusal, laying, outcomes};
use words::WordAddress;

// Judges a write by 3 and 4 in turn; hands on its address and its bytes.
#[tactic(auto, using(words::proofs::Carried::length_words_of), unfolding(crate::specs::Outcome::write_words_outcome))]
fn judge_write(end: usize, content: &[u8]) -> Result<(WordAddress, &[u8]), Refusal>
    ensures outcome { outcome_of result ≡ write_words_outcome end content.now }
    ensures parts { IfOk result (λ (a, b). (a.0 ≡ word_at content.now 0) × (b.now ≡ drop 2 content.now)) }
{
    let [high, low, bytes @ ..] = content else {
        return Err(Refusal::WrongData);
    };
    if bytes.is_empty() || !bytes.len().is_multiple_of(2) {
        return Err(Refusal::WrongData);
    }
    let address = WordAddress(wire::word(*high, *low));
    if address.passes_end(bytes.len() / 2, end) {
        return Err(Refusal::PastEnd);
    }
    Ok((address, bytes))
}

// Judges a read by 3, 4 and 7 in turn; hands on its address and its count, which the words and a frame hold.
#[tactic(auto, unfolding(crate::specs::Outcome::read_words_outcome))]
fn judge_read(end: usize, checking: bool, content: &[u8]) -> Result<(WordAddress, u8), Refusal>
    ensures outcome { outcome_of result ≡ read_words_outcome end checking content.now }
    ensures parts { IfOk result (λ (a, n). (a.0 ≡ word_at content.now 0) × (n ≡ byte_at content.now 2)) }
    ensures fits { IfOk result (λ (a, n). (a.0 + n ≤ end) × (3 + (n + n) ≤ most_data checking)) }
{
    let [high, low, n] = content else {
        return Err(Refusal::WrongData);
    };
    let address = WordAddress(wire::word(*high, *low));
    let count = usize::from(*n);
    if address.passes_end(count, end) {
        return Err(Refusal::PastEnd);
    }
    outcomes::fits_reply(checking, 3 + (count + count))?;
    Ok((address, *n))
}

// Judges a write and does it. One that is done asks for its words to be noted.
#[tactic(auto, unfolding(crate::specs::Effect::words_writing))]
pub fn write(words: &mut [u16], content: &[u8]) -> Performed
    ensures { leaves_words result words.new ≡ words_writing words.old content.now }
{
    match judge_write(words.len(), content) {
        Ok((address, bytes)) => {
            words::write(words, address, bytes);
            Performed {
                notes: true,
                ..outcomes::answer(Ok(()), 0)
            }
        }
        Err(refusal) => outcomes::answer(Err(refusal), 0),
    }
}

// Judges a read and lays the reply of one that is done: address, count and words.
#[tactic(auto, unfolding(crate::specs::Effect::words_replying, crate::specs::Effect::replying))]
pub fn read(fixed: Fixed, words: &[u16], content: &[u8], room: &mut [u8]) -> Performed
    ensures { replies result room.new ≡ words_replying fixed words.now content.now room.old }
{
    match judge_read(words.len(), fixed.checking, content) {
        Ok((address, n)) => {
            let a = address.0;
            let head = [READ_WORDS, wire::high_byte(a), wire::low_byte(a), n];
            let size = 2 * usize::from(n);
            let replied = laying::reply(fixed, head, size, room, |run| {
                words::read(words, address, n, run)
            });
            outcomes::answer(Ok(()), replied)
        }
        Err(refusal) => outcomes::answer(Err(refusal), 0),
    }
}
