// Which records and which tables are good under a setup.
ghost use Rattle.std.specs.Prelude.{◌≡◌};
ghost use Rattle.stores.specs.Store.{good_end};
ghost use Rattle.touch.specs.Table.{records_of};
ghost use Rattle.touch.specs.Judge.{good_area, good_step, same_area, good_slider, good_kind, good_record, first_wrong, judged, number_of_verdict, verdict_said, table_said};

use crate::{
    Area, Kind, MOST_RECORDS, RECORD_BYTES, Record, Setup, SliderFields, StepFields, TableError,
    records,
};

impl TableError {
    // 01's number.
    pub fn number(self) -> u8
        ensures { result ≡ number_of_verdict (Err self) }
    {
        match self {
            TableError::NotRecords => 12,
            TableError::Wrong(_) => 13,
        }
    }
}

// How many modes there are: "mode 0 whole word, 1 high byte, 2 low byte".
const MODES: u8 = 3;

fn good_area(s: Setup, a: Area) -> bool
    ensures { result ≡ good_area s a }
{
    a.xs <= a.xe && a.ys <= a.ye && a.xe < s.width && a.ye < s.height
}

fn good_end(mode: u8, w: u16) -> bool
    ensures { result ≡ good_end mode w }
{
    mode == 0 || w < 256
}

#[tactic(auto, unfolding(crate::specs::Judge::good_step))]
fn good_step(mode: u8, f: StepFields) -> bool
    ensures { result ≡ good_step mode f }
{
    mode < MODES
        && (1..=32767).contains(&f.step)
        && good_end(mode, f.least)
        && good_end(mode, f.greatest)
        && stores::at_most(f.least, f.greatest)
        && f.once == 1
}

#[tactic(auto, unfolding(crate::specs::Judge::good_slider))]
fn good_slider(r: Record, f: SliderFields) -> bool
    ensures { result ≡ good_slider r f }
{
    let digit = r.mode / 16;
    let first = records::along(r.mode, r.area.xs, r.area.ys);
    let last = records::along(r.mode, r.area.xe, r.area.ye);
    digit < MODES
        && r.mode % 16 < 2
        && r.area == f.again
        && records::no_next(r)
        && first < last
        && good_end(digit, f.begin)
        && good_end(digit, f.end)
}

fn good_kind(r: Record) -> bool
    ensures { result ≡ good_kind r r.kind }
{
    match r.kind {
        Kind::Key(_) => r.mode < MODES,
        Kind::Step(f) => good_step(r.mode, f),
        Kind::Slider(f) => good_slider(r, f),
        Kind::Other => false,
    }
}

#[tactic(auto, unfolding(crate::specs::Judge::good_record))]
pub fn good_record(s: Setup, r: Record) -> bool
    ensures { result ≡ good_record s r }
{
    r.page < s.pages
        && good_area(s, r.area)
        && (records::no_next(r) || r.next < s.pages)
        && r.fe == 0xFE
        && usize::from(r.word) < wire::WORD_COUNT
        && good_kind(r)
}

fn first_wrong(s: Setup, table: &[u8]) -> Result<(), TableError>
    ensures { result ≡ first_wrong s (records_of table.now) }
{
    match records::first_of(table, |r| !good_record(s, r)) {
        Some((i, _)) => Err(TableError::Wrong(i)),
        None => Ok(()),
    }
}

// Whether a table is good under a setup, and if not, why.
#[tactic(auto, using(crate::proofs::TableAnswers::judging_laws))]
pub fn judge(s: Setup, table: &[u8]) -> Result<(), TableError>
    ensures value { result ≡ judged s table.now }
    ensures result_value { verdict_said result ≡ table_said s table.now }
{
    let size = table.len();
    if MOST_RECORDS * RECORD_BYTES < size || !size.is_multiple_of(RECORD_BYTES) {
        return Err(TableError::NotRecords);
    }
    first_wrong(s, table)
}
