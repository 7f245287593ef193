// Starting a panel.
ghost use Rattle.std.specs.Prelude.{◌≡◌};
ghost use Rattle.panel.specs.State.{header_for};
ghost use Rattle.panel.specs.Numbers.{start_said};
ghost use Rattle.panel.specs.Listed.{start_listed, said_by};
ghost use Rattle.panel.specs.Start.{new_panel, no_panel, started, start_error_of};

use crate::{Panel, Start, StartError};
use frame::Header;
use line::Reader;
use registers::Registers;
use touch::{Setup, TableError};

// A start and a contact refuse a wrong table alike, and otherwise for different reasons.
impl From<TableError> for StartError {
    ghost from_gives = { λ why error. error ≡ start_error_of why };

    fn from(why: TableError) -> StartError {
        match why {
            TableError::NotRecords => StartError::NotRecords,
            TableError::Wrong(i) => StartError::WrongRecord(i),
        }
    }
}

pub fn header_for(setup: Setup) -> Header
    ensures { result ≡ header_for setup }
{
    Header {
        h1: setup.h1,
        h2: setup.h2,
    }
}

fn new_panel(setup: Setup) -> Panel
    ensures { result ≡ new_panel setup }
{
    let checking = touch::checking(setup);
    Panel {
        setup,
        registers: Registers::start(setup.h1, setup.h2, checking, touch::acknowledging(setup)),
        catch: None,
        counts: curves::none(),
        reader: Reader::new(header_for(setup), checking),
    }
}

// What stands in the panel's place where the start is refused: demands' `refused_start_is_inert` says that it takes nothing, so `Start` has it beside the
// answer and is no Result of a panel.
fn no_panel() -> Panel
    ensures { result ≡ no_panel }
{
    let panel = new_panel(Setup {
        h1: 0,
        h2: 0,
        flags: 0,
        pages: 0,
        width: 0,
        height: 0,
    });
    Panel {
        reader: Reader::none(),
        ..panel
    }
}

// Why a start is refused: 11, then 12 and 13.
fn judge(setup: Setup, table: &[u8]) -> Result<(), StartError>
    ensures { result ≡ (started setup table.now).answer }
{
    if !touch::good_setup(setup) {
        return Err(StartError::WrongSetup);
    }
    touch::judge(setup, table)?;
    Ok(())
}

impl Panel {
    // Starts a panel, or refuses with 11, 12 or 13.
    pub fn start(setup: Setup, table: &[u8]) -> Start
        ensures value { result ≡ started setup table.now }
        ensures answer_value { start_said result.answer ≡ said_by (start_listed setup table.now) }
    {
        let answer = judge(setup, table);
        let panel = match answer {
            Ok(()) => new_panel(setup),
            Err(_) => no_panel(),
        };
        Start { answer, panel }
    }
}
