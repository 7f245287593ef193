// What the display board reads.
ghost use Rattle.std.specs.Prelude.{◌≡◌};
ghost use Rattle.registers.specs.Touched.{page_of};
ghost use Rattle.panel.specs.State.{panel_register, panel_count, panel_moment};

use crate::Panel;
use clock::Moment;
use registers::RegisterAddress;

impl Panel {
    pub fn register(self, address: RegisterAddress) -> u8
        ensures { result ≡ panel_register self address.0 }
    {
        self.registers.at(address)
    }

    // The page that is shown.
    pub fn page(self) -> u16
        ensures { result ≡ page_of self.registers }
    {
        self.registers.page()
    }

    pub fn backlight(self) -> u8
        ensures { result ≡ panel_register self 0x01 }
    {
        self.register(RegisterAddress(0x01))
    }

    // In units of 10 ms.
    pub fn buzzer(self) -> u8
        ensures { result ≡ panel_register self 0x02 }
    {
        self.register(RegisterAddress(0x02))
    }

    // The moment at which the clock stands.
    pub fn moment(self) -> Moment
        ensures { result ≡ panel_moment self }
    {
        self.registers.moment()
    }

    // How many numbers a channel of the curves has; past the last channel, 0.
    pub fn curve_count(self, channel: usize) -> u16
        ensures { result ≡ panel_count self channel }
    {
        self.counts.of(channel)
    }
}
