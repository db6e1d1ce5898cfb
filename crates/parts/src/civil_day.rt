//! Days of the calendar, as answers write them.

ghost use Rattle.std.specs.Prelude.{◌≡◌, IfOk, Some, ℤ, string_bytes};
ghost use Rattle.jiff_core.specs.Date.{epoch_day};
ghost use Rattle.views.specs.Day.{IsDayText};

use jiff::civil;
use jiff_core::civil::Date;
use jiff_fmt::temporal::parse_date;
use std::alloc::{AllocError, Global};
use std::marker::Model;

/// A day, counted from 1970-01-01.
#[derive(Clone, Copy, PartialEq, Eq, PartialOrd, Ord)]
pub(crate) struct CivilDay {
    number: i32,
}

impl Model for CivilDay {
    ghost use Rattle.std.specs.Prelude.{ℤ};
    ghost use Rattle.jiff_core.specs.Calendar.{IsEpochDay};

    ghost Value = { ℤ };

    ghost view = { λ d. d.number };

    ghost invariant = { λ d. IsEpochDay d.number };

    ghost inverse = { λ z. record { number = z } };
}

impl CivilDay {
    /// The day that a text YYYY-MM-DD writes in a part's answer to `days`.
    pub(crate) fn of_text(text: &str) -> Option<CivilDay>
        ensures { (day : ℤ) → IsDayText day text.now → result ≡ Some day }
    {
        match parse_date(text.as_bytes()) {
            Ok(date) => Some(CivilDay {
                number: date.to_unix_epoch_day(),
            }),
            Err(_) => None,
        }
    }

    /// The date of a day in a part's answer to `days`.
    fn date(self) -> civil::Date
        ensures { epoch_day result ≡ self }
    {
        let date = Date::from_unix_epoch_day(self.number as i64).unwrap();
        civil::Date::from_plain(date)
    }

    /// The day as YYYY-MM-DD, as an answer combined from parts prints it.
    pub(crate) fn text(self, alloc: Global) -> Result<String, AllocError>
        ensures { IfOk result (λ t. IsDayText self (string_bytes t)) }
    {
        let date = self.date();
        Ok(format!(in alloc; "{date}")?)
    }
}
