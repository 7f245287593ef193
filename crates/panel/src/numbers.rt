// 01's number of each refusal.
ghost use Rattle.std.specs.Prelude.{◌≡◌};
ghost use Rattle.panel.specs.Numbers.{start_number, report_number, contact_number, lift_number};

use crate::{ContactError, LentError, LiftError, StartError};

impl StartError {
    #[tactic(auto, unfolding(crate::specs::Numbers::start_number))]
    pub fn number(self) -> u8
        ensures { result ≡ start_number (Err self) }
    {
        match self {
            StartError::WrongSetup => 11,
            StartError::NotRecords => 12,
            StartError::WrongRecord(_) => 13,
        }
    }
}

impl LentError {
    #[tactic(auto, unfolding(crate::specs::Numbers::report_number))]
    pub fn number(self) -> u8
        ensures { result ≡ report_number (Err self) }
    {
        match self {
            LentError::NotLent => 14,
            LentError::WrongList => 16,
        }
    }
}

impl ContactError {
    #[tactic(auto, unfolding(crate::specs::Numbers::contact_number))]
    pub fn number(self) -> u8
        ensures { result ≡ contact_number (Err self) }
    {
        match self {
            ContactError::NotLent => 14,
            ContactError::WrongList => 16,
            ContactError::Waits => 1,
            ContactError::NotRecords => 12,
            ContactError::WrongRecord(_) => 13,
            ContactError::TouchOff => 9,
            ContactError::OffScreen => 8,
        }
    }
}

impl LiftError {
    #[tactic(auto, unfolding(crate::specs::Numbers::lift_number))]
    pub fn number(self) -> u8
        ensures { result ≡ lift_number (Err self) }
    {
        match self {
            LiftError::Waits => 1,
            LiftError::IsUp => 10,
        }
    }
}
