// Giving many bytes at once, in place: byte by byte where something may be decided, in blocks where nothing is.
ghost use Rattle.std.specs.Prelude.{◌≡◌, [], ◌∷◌, ◌++◌, ◌+◌, ◌≤◌, ◌<◌, length, take};
ghost use Rattle.frame.specs.Frame.{longest_frame};
ghost use Rattle.line.specs.Inner.{Held, left_of, opened, step_of, noise_length};
ghost use Rattle.line.specs.State.{padded};
ghost use Rattle.place.specs.declared.Look.TheVariants.{Wait};
ghost use Rattle.line.specs.Methods.{gave, given_bytes};

use crate::{Fed, Line, Rest, Step, head, settle};
use place::Look;

// Takes a byte behind the n that are held. Array and count are lent apart, and `Held` says what holds of both: a struct of the two would take the array
// in and hand it out again, a copy each time.
fn take_byte(line: Line, held: &mut [u8], n: usize, b: u8) -> Step
    requires { (n < longest_frame) × Held n held.old }
    ensures { (result ≡ step_of line (take n held.old ++ (b ∷ []))) × (held.new ≡ padded longest_frame (left_of line (take n held.old ++ (b ∷ [])))) × (result.rest.len ≤ longest_frame) × (result.need ≤ longest_frame) }
{
    held[n] = b;
    let rest = settle::settle_in(line, held, n + 1);
    Step {
        rest,
        need: head::whole_at(line.header, &held[..rest.len]),
    }
}

// Takes a block of bytes that decides nothing behind the n that are held; answers how many.
fn take_block(held: &mut [u8], n: usize, need: usize, bytes: &[u8]) -> usize
    requires { (n + 1 < need) × (need ≤ longest_frame) × (0 < length bytes.now) × Held n held.old }
    ensures { (0 < result) × (n + result < need) × (result ≤ length bytes.now) × (held.new ≡ padded longest_frame (take n held.old ++ take result bytes.now)) }
{
    let k = (need - 1 - n).min(bytes.len());
    // Below some 16 bytes a call that copies a block costs more than it saves.
    if k < 16 {
        held[n] = bytes[0];
        return 1;
    }
    held[n..n + k].copy_from_slice(&bytes[..k]);
    k
}

// How many bytes at the front are not the first header byte. Not inlined: its loop is then so short that it is as fast wherever it lies. Inlined, it takes
// up to half as long again where its last jump comes to lie across 32 bytes (docs/PROVING.md, "Speed of the program").
#[inline(never)]
#[tactic(auto, unfolding(crate::specs::Inner::noise_length))]
fn noise_length(h1: u8, bytes: &[u8]) -> usize
    ensures { result ≡ noise_length h1 bytes.now }
{
    bytes.iter().take_while(|b| **b != h1).count()
}

// Gives bytes to a reader that takes them, in place: a byte that nothing waits for is skipped, a block that decides nothing is copied.
pub(crate) fn feed(line: Line, held: &mut [u8], count: usize, bytes: &[u8]) -> Fed
    requires { Held count held.old }
    ensures { gave result.used (opened line held.new result.rest.len result.rest.head) ≡ given_bytes (opened line held.old count Wait) bytes.now }
{
    let mut n = count;
    let mut head = Look::Wait;
    // Below this length the bytes held decide nothing. No `for` goes over the bytes: a turn takes one, a block, or all the noise in front.
    let mut need = 0;
    let mut i = 0;
    // `&` and no `&&`: one equation of truth values (docs/PROVING.md, Loops).
    while (i < bytes.len()) & head::can_take(n, head) {
        if n + 1 < need {
            let k = take_block(held, n, need, &bytes[i..]);
            head = Look::Wait;
            n += k;
            i += k;
        } else {
            let b = bytes[i];
            if (n == 0) & (b != line.header.h1) {
                head = Look::Wait;
                i += noise_length(line.header.h1, &bytes[i..]);
            } else {
                let step = take_byte(line, held, n, b);
                head = step.rest.head;
                n = step.rest.len;
                need = step.need;
                i += 1;
            }
        }
    }
    Fed {
        used: i,
        rest: Rest { len: n, head },
    }
}
