// What the record that acts stores.
ghost use Rattle.std.specs.Prelude.{◌≡◌};
ghost use Rattle.touch.specs.Rounding.{rounding_of};
ghost use Rattle.touch.specs.Act.{slid_at, acted_of, dragged_of};

use crate::{Kind, Point, Record, Setup, SliderFields, records, setups};

#[tactic(auto, unfolding(crate::specs::Rounding::rounding_of))]
fn slid_at(setup: Setup, r: Record, f: SliderFields, old: u16, point: Point) -> u16
    ensures { result ≡ slid_at (rounding_of setup) r f old point.x point.y }
{
    stores::slider_stores(
        setups::sheet(setup),
        r.mode / 16,
        old,
        f.begin,
        f.end,
        records::along(r.mode, r.area.xs, r.area.ys),
        records::along(r.mode, r.area.xe, r.area.ye),
        records::along(r.mode, point.x, point.y),
    )
}

// The word at a record's address after the record acted at a point.
#[tactic(auto, unfolding(crate::specs::Act::acted_of))]
pub fn acted(setup: Setup, r: Record, old: u16, point: Point) -> u16
    ensures { result ≡ acted_of setup r old point.x point.y }
{
    match r.kind {
        Kind::Key(code) => stores::key_stores(r.mode, old, code),
        Kind::Step(f) => stores::step_stores(
            r.mode,
            old,
            f.direction != 0,
            f.ending != 0,
            f.step,
            f.least,
            f.greatest,
        ),
        Kind::Slider(f) => slid_at(setup, r, f, old, point),
        Kind::Other => old,
    }
}

// The word after a record that was caught is dragged to a point, which may lie outside its area. Only a slider stores.
#[tactic(auto, unfolding(crate::specs::Act::dragged_of))]
pub fn dragged(setup: Setup, r: Record, old: u16, point: Point) -> u16
    ensures { result ≡ dragged_of setup r old point.x point.y }
{
    if records::is_slider(r) {
        acted(setup, r, old, point)
    } else {
        old
    }
}
