// The registers that a touch reads and sets: page, flag, status, place, and whether touch is off.
ghost use Rattle.std.specs.Prelude.{◌≡◌};
ghost use Rattle.registers.specs.Touched.{page_of, with_page, is_down, with_status, is_touch_off, with_place};

use crate::{RegisterAddress, Registers};

impl Registers {
    // The page that is shown.
    #[tactic(auto, unfolding(crate::specs::Touched::page_of))]
    pub fn page(self) -> u16
        ensures { result ≡ page_of self }
    {
        wire::word(
            self.at(RegisterAddress(0x03)),
            self.at(RegisterAddress(0x04)),
        )
    }

    // With another page.
    #[tactic(auto, unfolding(crate::specs::Touched::with_page))]
    pub fn with_page(self, page: u16) -> Registers
        ensures { result ≡ with_page self page }
    {
        self.with_run(0x03, &[wire::high_byte(page), wire::low_byte(page)])
    }

    // The panel is touched.
    #[tactic(auto, unfolding(crate::specs::Touched::is_down))]
    pub fn is_down(self) -> bool
        ensures { result ≡ is_down self }
    {
        matches!(self.at(RegisterAddress(0x06)), 0x01 | 0x03)
    }

    // Any byte and no enum: the promise is for every status.
    #[tactic(auto, unfolding(crate::specs::Touched::with_status))]
    pub fn with_status(mut self, status: u8) -> Registers
        ensures { result ≡ with_status self status }
    {
        self.bytes[0x06] = status;
        self
    }

    #[tactic(auto, unfolding(crate::specs::Touched::is_touch_off))]
    pub fn is_touch_off(self) -> bool
        ensures { result ≡ is_touch_off self }
    {
        self.at(RegisterAddress(0x0B)) == 0x00
    }

    // With the place of a touch, unless the master has not cleared the flag of the last one. Two numbers and no `touch::Point`: registers
    // know nothing of touch (crates.txt).
    #[tactic(auto, unfolding(crate::specs::Touched::with_place))]
    pub fn with_place(mut self, x: u16, y: u16) -> Registers
        ensures { result ≡ with_place self x y }
    {
        if self.at(RegisterAddress(0x05)) == 0x5A {
            return self;
        }
        self.bytes[0x05] = 0x5A;
        let place = [
            wire::high_byte(x),
            wire::low_byte(x),
            wire::high_byte(y),
            wire::low_byte(y),
        ];
        self.with_run(0x07, &place)
    }
}
