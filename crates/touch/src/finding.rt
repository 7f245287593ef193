// Which record of a table a point finds.
ghost use Rattle.std.specs.Prelude.{◌≡◌};
ghost use Rattle.touch.specs.Find.{holds, found, found_said, point_said};

use crate::{Point, Record, records};

fn holds_point(r: Record, page: u16, point: Point) -> bool
    ensures { result ≡ holds page point.x point.y r }
{
    let area = r.area;
    r.page == page
        && (area.xs..=area.xe).contains(&point.x)
        && (area.ys..=area.ye).contains(&point.y)
}

// The first record of a page, before the table's end, whose area holds a point.
pub fn find(table: &[u8], page: u16, point: Point) -> Option<(usize, Record)>
    ensures value { result ≡ found table.now page point.x point.y }
    ensures result_value { found_said result ≡ point_said table.now page point.x point.y }
{
    records::first_of(table, |r| holds_point(r, page, point))
}
