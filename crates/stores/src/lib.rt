// What a key, a step and a slider store in a word: 01, "Setup and touch table", in whole numbers. No record and no table.
#![tactic(auto)]

ghost use Rattle.std.specs.Prelude.{◌≡◌, ◌-◌, ◌*◌};
ghost use Rattle.std.specs.Int.Signed.{le_z};
ghost use Rattle.stores.specs.Store.{signed, word_of, value_in, placed, key_stores};
ghost use Rattle.stores.specs.Step.{stepped, fenced, step_stores};
ghost use Rattle.stores.specs.Slider.{nearest, rounded_down, rounded_to_nearest, rounded_by, slid_to, slider_stores};

// ---- Numbers in words

// A word as a signed number.
#[tactic(auto, unfolding(crate::specs::Store::signed))]
fn signed(w: u16) -> i16
    ensures { result ≡ signed w }
{
    w.cast_signed()
}

// The word that holds a number.
#[tactic(auto, unfolding(crate::specs::Store::word_of))]
fn word_of(n: i32) -> u16
    ensures { result ≡ word_of n }
{
    (n.cast_unsigned() % 65536) as u16
}

// Whether a word is at most another, as signed numbers.
pub fn at_most(a: u16, b: u16) -> bool
    ensures { result ≡ le_z (signed a) (signed b) }
{
    signed(a) <= signed(b)
}

// The number that a mode finds in a word. The mode stays the record's number and no enum: any byte may stand there, and `in_mode` says what each counts as.
#[tactic(auto, unfolding(crate::specs::Store::in_mode))]
fn value_in(mode: u8, w: u16) -> i16
    ensures { result ≡ value_in mode w }
{
    match mode {
        0 => signed(w),
        1 => i16::from(wire::high_byte(w)),
        _ => i16::from(wire::low_byte(w)),
    }
}

// What a mode makes of the old word and the new one.
#[tactic(auto, unfolding(crate::specs::Store::in_mode))]
fn place(mode: u8, old: u16, new: u16) -> u16
    ensures { result ≡ placed mode old new }
{
    match mode {
        0 => new,
        1 => wire::word(wire::low_byte(new), wire::low_byte(old)),
        _ => wire::word(wire::high_byte(old), wire::low_byte(new)),
    }
}

// ---- Key

// The word after a key acted on it.
pub fn key_stores(mode: u8, old: u16, code: u16) -> u16
    ensures { result ≡ key_stores mode old code }
{
    place(mode, old, code)
}

// ---- Step

// The old value with the step added or taken.
#[tactic(auto, unfolding(crate::specs::Step::stepped))]
fn step_from(up: bool, mode: u8, old: u16, step: u16) -> i32
    ensures { result ≡ stepped up (value_in mode old) step }
{
    let value = i32::from(value_in(mode, old));
    if up {
        value + i32::from(step)
    } else {
        value - i32::from(step)
    }
}

// What is stored for t.
#[tactic(auto, unfolding(crate::specs::Step::fenced))]
fn fence(up: bool, round: bool, least: i32, greatest: i32, t: i32) -> i32
    ensures { result ≡ fenced up round least greatest t }
{
    if (least..=greatest).contains(&t) {
        return t;
    }
    let to_least = if round { up } else { t < least };
    if to_least { least } else { greatest }
}

// The word after a step acted on it. No struct for the parameters: they are those of `step_stores` in specs/, one for each word of 01's rule.
#[tactic(auto, unfolding(crate::specs::Step::step_stores))]
pub fn step_stores(
    mode: u8,
    old: u16,
    up: bool,
    round: bool,
    step: u16,
    least: u16,
    greatest: u16,
) -> u16
    ensures { result ≡ step_stores mode old up round step least greatest }
{
    let t = step_from(up, mode, old, step);
    let least = i32::from(signed(least));
    let greatest = i32::from(signed(greatest));
    let kept = fence(up, round, least, greatest, t);
    place(mode, old, word_of(kept))
}

// ---- Slider

// The scale sheet that a slider keeps to, which says how it rounds.
#[derive(Clone, Copy, Debug, PartialEq, Eq)]
pub enum Sheet {
    // Down.
    Old,
    // To the nearest number, halves towards the end value.
    Revised,
}

impl Sheet {
    #[tactic(auto, unfolding(crate::specs::Slider::rounded_by))]
    fn rounded(self, product: u64, w: u64) -> u64
        ensures { result ≡ rounded_by self product w }
    {
        match self {
            Sheet::Old => rounded_down(product, w),
            Sheet::Revised => rounded_to_nearest(product, w),
        }
    }
}

#[tactic(auto, unfolding(crate::specs::Slider::rounded_down))]
fn rounded_down(product: u64, w: u64) -> u64
    ensures { result ≡ rounded_down product w }
{
    product.checked_div(w).unwrap_or(0)
}

// What is left of the product is held against what is wanting, so that no product is too great.
#[tactic(auto, using(crate::proofs::SliderAnswers::nearest_laws))]
fn rounded_to_nearest(product: u64, w: u64) -> u64
    ensures { result ≡ rounded_to_nearest product w }
{
    if w == 0 {
        return 0;
    }
    let quotient = product / w;
    let left = product % w;
    if left < w - left {
        quotient
    } else {
        quotient + 1
    }
}

// No `clamp`: where the last place lies before the first, a place before the first still counts as the first.
#[tactic(auto, unfolding(crate::specs::Slider::nearest))]
fn nearest_to(first: u16, last: u16, at: u16) -> u16
    ensures { result ≡ nearest first last at }
{
    if at < first { first } else { at.min(last) }
}

// How much of the way from begin to end is behind a slider.
#[tactic(auto, using(crate::proofs::SliderAnswers::share_at_most))]
fn moved(sheet: Sheet, way: u16, first: u16, last: u16, at: u16) -> u16
    ensures { result ≡ rounded_by sheet (way * (nearest first last at - first)) (last - first) }
{
    let d = nearest_to(first, last, at).saturating_sub(first);
    let w = last.saturating_sub(first);
    sheet.rounded(u64::from(way) * u64::from(d), u64::from(w)) as u16
}

// Where a slider stands.
#[tactic(auto, using(crate::proofs::SliderAnswers::standing))]
fn slide(sheet: Sheet, begin: u16, end: u16, first: u16, last: u16, at: u16) -> i32
    ensures { result ≡ slid_to (rounded_by sheet) (signed begin) (signed end) first last at }
{
    let from = signed(begin);
    let to = signed(end);
    let moved = moved(sheet, to.abs_diff(from), first, last, at);
    if from <= to {
        i32::from(from) + i32::from(moved)
    } else {
        i32::from(from) - i32::from(moved)
    }
}

// The word after a slider acted on it, rounding by a sheet: begin and end stand at the first and the last edge, and the point lies
// at a place along the axis. No struct for the parameters, as at `step_stores`.
#[tactic(auto, unfolding(crate::specs::Slider::slider_stores))]
pub fn slider_stores(
    sheet: Sheet,
    mode: u8,
    old: u16,
    begin: u16,
    end: u16,
    first: u16,
    last: u16,
    at: u16,
) -> u16
    ensures { result ≡ slider_stores (rounded_by sheet) mode old begin end first last at }
{
    let stands = slide(sheet, begin, end, first, last, at);
    place(mode, old, word_of(stands))
}
