//! Rows of a numberer, counted from the first on.

ghost use Rattle.std.specs.Prelude.{◌≡◌, ◌≢◌, ℕ, IfNone, IfOk, IfSome};
ghost use Rattle.attributes.specs.Event.{EventValue, source_of};
ghost use Rattle.attributes.specs.Fault.{IsEvent};
ghost use Rattle.numbers.specs.Counts.{next};
ghost use Rattle.numbers.specs.Numbered.{HasNumber, IsBare};

use crate::counted::Counted;
use crate::event::bare;
use attributes::{Event, Sequenced};
use std::alloc::{AllocError, Global};

/// The event of a numberer's next row: none where the row isn't that of an event with the number
/// that is its source's next. Time and memory in proportion to the row's text.
pub fn next_event(
    alloc: Global,
    counted: &Counted,
    row: &Sequenced,
) -> Result<Option<Event>, AllocError>
    ensures next { IfOk result (λ o. IfSome o (λ e. IsBare e
        × HasNumber (next counted.now (source_of e)) e row.now)) }
    ensures none { IfOk result (λ o. IfNone o ((e : EventValue) (n : ℕ) → IsBare e
        → HasNumber n e row.now → n ≢ next counted.now (source_of e))) }
    ensures event { IsEvent row.now }
{
    let own = row.number().number();
    let found = bare(alloc, row)?;
    let Some(event) = found else {
        return Ok(None);
    };
    let Some(next) = counted.next_of(event.source()) else {
        return Ok(None);
    };
    if own != next.number() {
        return Ok(None);
    }
    Ok(Some(event))
}
