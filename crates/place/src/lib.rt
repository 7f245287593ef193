// What stands at one place of a stretch, and where going on from place to place stops: 01, "Reading the line", its four bullets.
// Each function looks at the front of a lent part of the stretch. Header and checking choice stay apart, as in frame.
#![tactic(auto)]

ghost use Rattle.std.specs.Prelude.{◌≡◌, ◌∷◌, [], ◌-◌, length};
ghost use Rattle.frame.specs.Frame.{header_bytes, right_check};
ghost use Rattle.reading.specs.Place.{cut_short, decided_by_check, after_header, behind, look};
ghost use Rattle.place.specs.Bullets.{look_said, place_said, stop_said, stop_listed};
ghost use Rattle.place.specs.Looks.{rules_of, shown, stop_of};

use frame::Header;

// What stands at a place.
#[derive(Clone, Copy, Debug, PartialEq, Eq)]
pub enum Look {
    // No frame begins here: go on at the next place.
    Pass,
    // More bytes decide.
    Wait,
    // A frame whose check bytes are wrong: its command.
    Bad(u8),
    // An accepted frame: its length byte.
    Good(u8),
}

// Where going on stops, and what stands there.
#[derive(Clone, Copy, Debug, PartialEq, Eq)]
pub struct Stop {
    pub at: usize,
    pub look: Look,
}

// A place whose frame the stretch's end cuts off.
fn cut_short(closed: bool) -> Look
    ensures { result ≡ shown (cut_short closed) }
{
    if closed { Look::Pass } else { Look::Wait }
}

// Whether the last two of the L bytes are the check value of the rest.
fn right_check(checking: bool, body: &[u8]) -> bool
    ensures { result ≡ right_check checking body.now }
{
    if !checking {
        return true;
    }
    match body.split_last_chunk() {
        Some((content, sent)) => u16::from_le_bytes(*sent) == check_value::check_value(content),
        None => false,
    }
}

// A whole frame, by its length byte and the L bytes behind it.
fn by_check(checking: bool, l: u8, body: &[u8]) -> Look
    requires { length body.now ≡ l }
    ensures { result ≡ shown (decided_by_check checking body.now) }
{
    if right_check(checking, body) {
        Look::Good(l)
    } else {
        Look::Bad(wire::byte_at(body, 0))
    }
}

// What the bytes behind the header make of the place.
fn after_header(checking: bool, closed: bool, s: &[u8]) -> Look
    ensures { result ≡ shown (after_header checking closed s.now) }
{
    let [l, behind @ ..] = s else {
        return cut_short(closed);
    };
    let n = usize::from(*l);
    if n < 1 + frame::check_length(checking) {
        return Look::Pass;
    }
    if behind.len() < n {
        return cut_short(closed);
    }
    by_check(checking, *l, &behind[..n])
}

// What the bytes behind the first header byte make of the place.
fn after_first(h2: u8, checking: bool, closed: bool, s: &[u8]) -> Look
    ensures { result ≡ shown (behind checking closed (h2 ∷ []) s.now) }
{
    match s {
        [] => cut_short(closed),
        [first, behind @ ..] if *first == h2 => after_header(checking, closed, behind),
        _ => Look::Pass,
    }
}

// What stands at the first of these bytes, the rest of a stretch.
pub fn look_at(header: Header, checking: bool, closed: bool, s: &[u8]) -> Look
    ensures value { result ≡ shown (look (rules_of header checking) closed s.now) }
    ensures result_value { look_said (header_bytes header) result ≡ place_said (rules_of header checking) closed s.now }
{
    match s {
        [] => cut_short(closed),
        [first, behind @ ..] if *first == header.h1 => {
            after_first(header.h2, checking, closed, behind)
        }
        _ => Look::Pass,
    }
}

// The first place that is not passed over, and what stands there; behind the last byte a place waits.
pub fn first_stop(header: Header, checking: bool, closed: bool, s: &[u8]) -> Stop
    ensures value { result ≡ stop_of (rules_of header checking) closed s.now }
    ensures result_value { stop_said (header_bytes header) result ≡ stop_listed (rules_of header checking) closed s.now }
{
    for at in 0..s.len() {
        match look_at(header, checking, closed, &s[at..]) {
            Look::Pass => {}
            look => return Stop { at, look },
        }
    }
    Stop {
        at: s.len(),
        look: Look::Wait,
    }
}
