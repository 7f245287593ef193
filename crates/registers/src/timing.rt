// The clock's registers: the moment at which it stands, and a second that passes.
ghost use Rattle.std.specs.Prelude.{◌≡◌};
ghost use Rattle.registers.specs.Clocked.{moment_of, with_moment, second_passed};

use crate::{Registers, YEAR_REGISTER};
use clock::Moment;

impl Registers {
    // The moment at which the clock stands.
    #[tactic(auto, unfolding(crate::specs::Clocked::moment_of, crate::specs::Table::register_at, clock::specs::Shown::moment_in))]
    pub fn moment(self) -> Moment
        ensures { result ≡ moment_of self }
    {
        clock::moment_in(&self.bytes[YEAR_REGISTER..])
    }

    // With the clock at a moment.
    #[tactic(auto, unfolding(crate::specs::Clocked::with_moment))]
    fn with_moment(self, moment: Moment) -> Registers
        ensures { result ≡ with_moment self moment }
    {
        self.with_run(YEAR_REGISTER, &clock::shown(moment))
    }

    // With the clock one second later.
    #[tactic(auto, unfolding(crate::specs::Clocked::second_passed))]
    pub fn second_passed(self) -> Registers
        ensures { result ≡ second_passed self }
    {
        self.with_moment(self.moment().next())
    }
}
