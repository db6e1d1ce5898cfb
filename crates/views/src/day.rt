//! UTC days.

ghost use Rattle.std.specs.Prelude.{◌≡◌, Some, true};
ghost use Rattle.attributes.specs.Event.{day_of};
ghost use Rattle.views.specs.Day.{is_day_number};

use attributes::Event;
use std::marker::Model;

/// A UTC day, counted from 1970-01-01, in the years 0000 to 9999.
#[derive(Clone, Copy, PartialEq, Eq, PartialOrd, Ord, Hash, Debug)]
pub struct Day {
    number: i32,
}

impl Model for Day {
    ghost use Rattle.std.specs.Prelude.{◌≡◌, ℤ, true};
    ghost use Rattle.views.specs.Day.{is_day_number};

    ghost Value = { ℤ };

    ghost view = { λ d. d.number };

    ghost invariant = { λ d. is_day_number d.number ≡ true };

    ghost inverse = { λ z. record { number = z } };
}

impl Day {
    /// The day number of a UTC day that the question `days` counts by.
    pub fn number(self) -> i32
        ensures value { result ≡ self }
        ensures range { is_day_number self ≡ true }
    {
        self.number
    }

    /// The UTC day, for the question `days`, that has the number.
    fn of(number: i32) -> Day
        requires { is_day_number number ≡ true }
        ensures { result ≡ number }
    {
        Day { number }
    }

    /// The day of the event's time in UTC, where it has a time: what `Query::Days` counts by. Takes
    /// no time, since an event knows its day.
    pub fn of_event(event: &Event) -> Option<Day>
        ensures { result ≡ day_of event.now }
    {
        match event.day() {
            Some(number) => Some(Day::of(number)),
            None => None,
        }
    }
}
