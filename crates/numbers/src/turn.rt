//! The events of a batch, each with its number.

ghost use Rattle.std.specs.Prelude.{◌≡◌, ◌⊎◌, ◌<◌, [], ◌∷◌, ℕ, List, IfErr, IfNone, IfOk, IfSome, None, Some};
ghost use Rattle.std.specs.List.{AllByRecursion};
ghost use Rattle.attributes.specs.Event.{EventValue};
ghost use Rattle.attributes.specs.Fault.{IsEvent};
ghost use Rattle.attributes.specs.Members.{value_at};
ghost use Rattle.attributes.specs.Sequence.{max_sequence};
ghost use Rattle.numbers.specs.Counts.{IsCountOf, KeepsKnown, Knows, KnowsEach, KnowsOnly};
ghost use Rattle.numbers.specs.Filter.{MayHave};
ghost use Rattle.numbers.specs.Numbered.{AreBare, AreEachNumbered, HaveNumbers};
ghost use Rattle.numbers.specs.Numberer.{number, taken};
ghost use Rattle.numbers.specs.declared.fault.NumberFault.TheVariants.{Full, OutOfMemory};

use crate::counted::Counted;
use crate::event::numbered;
use crate::fault::NumberFault;
use crate::known::Known;
use attributes::{Batch, Event, Events, Sequence};
use std::alloc::Global;

/// The number that the text is known with. What surely has none isn't looked for.
fn number_if_known(counted: &Counted, known: &Known, text: &str) -> Option<Sequence>
    ensures some { IfSome result (λ n. value_at text.now known.now ≡ Some n) }
    ensures none { IfNone result ((MayHave counted.now.seen text.now → ⊥)
        ⊎ (value_at text.now known.now ≡ None)) }
{
    if !counted.may_have(text) {
        return None;
    }
    known.number_of(text)
}

/// The number given to the event, at the index: the one that its text is known with, else its
/// source's next, which is counted then, and known.
fn number_of(
    counted: &mut Counted,
    known: &mut Known,
    index: u64,
    event: &Event,
) -> Result<Sequence, NumberFault>
    ensures counts { IfOk result (λ n. (base : List ℕ → ℕ) (A : List EventValue)
        → IsCountOf base A counted.old → Knows base A known.old event.now
        → (n ≡ number base (taken A (event.now ∷ [])) event.now)
        × IsCountOf base (taken A (event.now ∷ [])) counted.new) }
    ensures known { IfOk result (λ _. (base : List ℕ → ℕ) (A : List EventValue)
        → IsCountOf base A counted.old → Knows base A known.old event.now
        → KeepsKnown base A (taken A (event.now ∷ [])) known.old known.new) }
    ensures only { IfOk result (λ _. (base : List ℕ → ℕ) (A : List EventValue)
        → IsCountOf base A counted.old → Knows base A known.old event.now
        → KnowsOnly base A known.old → KnowsOnly base (taken A (event.now ∷ [])) known.new) }
    ensures refused { IfErr result (λ f. (f ≡ OutOfMemory) ⊎ ((f ≡ Full index)
        × ((base : List ℕ → ℕ) (A : List EventValue) → IsCountOf base A counted.old
        → Knows base A known.old event.now
        → max_sequence < number base (taken A (event.now ∷ [])) event.now))) }
{
    if let Some(number) = number_if_known(counted, known, event.text()) {
        return Ok(number);
    }
    let Some(number) = counted.next_of(event.source()) else {
        return Err(NumberFault::Full { index });
    };
    counted.add(event.text(), event.source(), number)?;
    known.add(event.text(), number)?;
    Ok(number)
}

/// The events with their numbers, in their order: each the one that its text has, or else its
/// source's next. What has a number among them has to be known with it; then what they are given is
/// known too. Time in proportion to the texts' bytes and the logarithm of what is known.
///
/// `Full`, where an event's number would be above 2^63 - 1. Where it is refused, some of the events
/// may be counted.
pub fn number_all(
    alloc: Global,
    counted: &mut Counted,
    known: &mut Known,
    events: &Events,
) -> Result<Batch, NumberFault>
    requires { AreBare events.now }
    ensures numbers { IfOk result (λ batch. (base : List ℕ → ℕ) (A : List EventValue)
        → IsCountOf base A counted.old → KnowsEach base A known.old events.now
        → HaveNumbers (number base (taken A events.now)) events.now batch
        × IsCountOf base (taken A events.now) counted.new) }
    ensures known { IfOk result (λ _. (base : List ℕ → ℕ) (A : List EventValue)
        → IsCountOf base A counted.old → KnowsEach base A known.old events.now
        → KeepsKnown base A (taken A events.now) known.old known.new) }
    ensures only { IfOk result (λ _. (base : List ℕ → ℕ) (A : List EventValue)
        → IsCountOf base A counted.old → KnowsEach base A known.old events.now
        → KnowsOnly base A known.old → KnowsOnly base (taken A events.now) known.new) }
    ensures each { IfOk result (AreEachNumbered events.now) }
    ensures events { IfOk result (AllByRecursion IsEvent) }
    ensures refused { IfErr result (λ f. (f ≡ OutOfMemory) ⊎ ((i : ℕ) × (f ≡ Full i))) }
{
    let mut batch = Batch::empty(alloc);
    for i in 0..events.len() {
        let event = events.at(i);
        let number = number_of(counted, known, i, event)?;
        batch.push(numbered(alloc, event, number)?)?;
    }
    Ok(batch)
}
