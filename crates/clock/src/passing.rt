// A second that passes.
ghost use Rattle.std.specs.Prelude.{◌≡◌};
ghost use Rattle.clock.specs.Existing.{time_exists, moment_exists};
ghost use Rattle.clock.specs.Passing.{tomorrow, ends_day, second_later, next_second};

use crate::{Date, Moment, Time, calendar};

impl Date {
    // The next day; 1 January 2000 follows the last day of 2099.
    #[tactic(auto, unfolding(crate::specs::Passing::tomorrow))]
    pub fn tomorrow(self) -> Date
        ensures { result ≡ tomorrow self }
    {
        if self.day < calendar::month_days(self.is_in_leap_year(), self.month) {
            Date {
                day: self.day + 1,
                ..self
            }
        } else if self.month < 12 {
            Date {
                month: self.month + 1,
                day: 1,
                ..self
            }
        } else if self.year < 99 {
            Date {
                year: self.year + 1,
                month: 1,
                day: 1,
            }
        } else {
            Date {
                year: 0,
                month: 1,
                day: 1,
            }
        }
    }
}

impl Time {
    #[tactic(auto, unfolding(crate::specs::Existing::time_exists))]
    pub fn exists(self) -> bool
        ensures { result ≡ time_exists self }
    {
        self.hour < 24 && self.minute < 60 && self.second < 60
    }

    // The last second of a day.
    #[tactic(auto, unfolding(crate::specs::Passing::ends_day))]
    fn ends_day(self) -> bool
        ensures { result ≡ ends_day self }
    {
        23 <= self.hour && 59 <= self.minute && 59 <= self.second
    }

    // One second later on the same day; midnight follows the last second.
    #[tactic(auto, unfolding(crate::specs::Passing::second_later))]
    fn second_later(self) -> Time
        ensures { result ≡ second_later self }
    {
        if self.second < 59 {
            Time {
                second: self.second + 1,
                ..self
            }
        } else if self.minute < 59 {
            Time {
                minute: self.minute + 1,
                second: 0,
                ..self
            }
        } else if self.hour < 23 {
            Time {
                hour: self.hour + 1,
                minute: 0,
                second: 0,
            }
        } else {
            Time {
                hour: 0,
                minute: 0,
                second: 0,
            }
        }
    }
}

impl Moment {
    #[tactic(auto, unfolding(crate::specs::Existing::moment_exists))]
    pub fn exists(self) -> bool
        ensures { result ≡ moment_exists self }
    {
        self.date.exists() && self.time.exists()
    }

    // One second later.
    #[tactic(auto, unfolding(crate::specs::Passing::next_second))]
    pub fn next(self) -> Moment
        ensures { result ≡ next_second self }
    {
        Moment {
            date: if self.time.ends_day() {
                self.date.tomorrow()
            } else {
                self.date
            },
            time: self.time.second_later(),
        }
    }
}
