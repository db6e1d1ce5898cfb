//! The numbers of the texts that calls have met.

ghost use Rattle.std.specs.Prelude.{◌≡◌, ◌↔◌, [], ℕ, List, IfOk, IsFalse, IsTrue, None, OnOk, Some, if◌then◌else◌};
ghost use Rattle.std.specs.List.{AllByRecursion};
ghost use Rattle.std.specs.Option.{option_copied};
ghost use Rattle.attributes.specs.Event.{EventValue};
ghost use Rattle.attributes.specs.Members.{named, value_at, with_value};
ghost use Rattle.inbox.specs.KeyOrder.{key_cmp};
ghost use Rattle.inbox.specs.Ordered.{has};
ghost use Rattle.numbers.specs.Counts.{HasText};
ghost use Rattle.numbers.specs.Numbered.{AreBare, HasNoOther, HasNumber, HaveNumbers, IsBare};

use crate::event::numbered;
use attributes::{Batch, Event, Events, Sequence, Sequenced};
use std::alloc::{AllocError, Global};
use std::collections::BTreeMap;
use std::marker::Model;

/// How many bytes an entry of `Known` is reckoned to take beside its text.
const ENTRY_BYTES: u64 = 64;

/// How many bytes of memory are small for `Known`.
const SMALL_BYTES: u64 = 1_048_576;

/// Numbers of texts. Memory in proportion to the texts.
#[derive(Drop)]
pub struct Known {
    numbers: BTreeMap<String, Sequence>,
    /// About how much memory they take; a text that is added again counts again.
    bytes: u64,
    alloc: Global,
}

impl Model for Known {
    ghost use Rattle.attributes.specs.Members.{named};
    ghost use Rattle.numbers.specs.Counts.{TextNumbers};

    ghost Value = { TextNumbers };

    ghost view = { λ k. named k.numbers.entries };
}

/// The number that a numberer has for a name (a text or source).
pub(crate) fn at(numbers: &BTreeMap<String, Sequence>, name: &str) -> Option<Sequence>
    ensures { result ≡ value_at name.now (named numbers.now.entries) }
{
    numbers.get(name).copied()
}

/// Puts the numberer's number at a name, in place of the one that is there.
pub(crate) fn put(
    alloc: Global,
    numbers: &mut BTreeMap<String, Sequence>,
    name: &str,
    number: Sequence,
) -> Result<(), AllocError>
    ensures { OnOk result (named numbers.new.entries
        ≡ with_value name.now number (named numbers.old.entries)) }
{
    let name = String::from_str(alloc, name)?;
    numbers.insert(name, number)?;
    Ok(())
}

impl Known {
    /// Numbers of no texts. They take no memory.
    pub fn empty(alloc: Global) -> Known
        ensures { result ≡ [] }
    {
        Known {
            numbers: BTreeMap::new(alloc),
            bytes: 0,
            alloc,
        }
    }

    /// The number of this text, if it is known. Time logarithmic in the texts.
    pub fn number_of(&self, text: &str) -> Option<Sequence>
        ensures { result ≡ value_at text.now self.now }
    {
        at(&self.numbers, text)
    }

    /// Whether the number of each event is known by its text. The time of
    /// [`Known::number_of`] for each.
    pub fn has_all(&self, events: &Events) -> bool
        ensures { IsTrue result ↔ AllByRecursion (HasText self.now) events.now }
    {
        for i in 0..events.len() {
            let Some(_number) = self.number_of(events.at(i).text()) else {
                return false;
            };
        }
        true
    }

    /// Has the number of a text known, in place of the one that was.
    pub fn add(&mut self, text: &str, number: Sequence) -> Result<(), AllocError>
        ensures { OnOk result (self.new ≡ with_value text.now number self.old) }
    {
        let text_bytes = text.len() as u64;
        self.bytes = self.bytes.saturating_add(text_bytes);
        self.bytes = self.bytes.saturating_add(ENTRY_BYTES);
        put(self.alloc, &mut self.numbers, text, number)
    }

    /// Whether these numbers of texts take little memory, about 1 MiB at most.
    pub(crate) fn is_small(&self) -> bool {
        self.bytes <= SMALL_BYTES
    }
}

/// Whether the row is the event with its number, as a numberer keeps it.
fn is_row_of(alloc: Global, event: &Event, row: &Sequenced) -> Result<bool, AllocError>
    requires { IsBare event.now }
    ensures { IfOk result (λ is. IsTrue is ↔ ((n : ℕ) × HasNumber n event.now row.now)) }
{
    let given = numbered(alloc, event, row.number())?;
    Ok(given.event().text() == row.event().text())
}

/// The number that the event has among these rows of a numberer, if it is there. Time and memory in
/// proportion to the event's text, for each row up to its own.
pub fn number_among(
    alloc: Global,
    event: &Event,
    rows: &Batch,
) -> Result<Option<Sequence>, AllocError>
    requires { IsBare event.now }
    ensures { IfOk result (λ o. (number : EventValue → ℕ) (events : List EventValue)
        → AreBare events → HaveNumbers number events rows.now
        → o ≡ (if has key_cmp events event.now then Some (number event.now) else None)) }
{
    for i in 0..rows.len() {
        let row = rows.at(i);
        if is_row_of(alloc, event, row)? {
            return Ok(Some(row.number()));
        }
    }
    Ok(None)
}

/// Whether the row is the event with another number than this.
fn is_other_row_of(
    alloc: Global,
    event: &Event,
    number: Sequence,
    row: &Sequenced,
) -> Result<bool, AllocError>
    requires { IsBare event.now }
    ensures { IfOk result (λ is. IsFalse is ↔ HasNoOther number event.now row.now) }
{
    if !is_row_of(alloc, event, row)? {
        return Ok(false);
    }
    Ok(row.number().number() != number.number())
}

/// Whether none of these rows of a numberer is the event with another number than this. Time and
/// memory in proportion to the event's text, for each row up to the first that is.
pub fn has_no_other(
    alloc: Global,
    event: &Event,
    number: Sequence,
    rows: &Batch,
) -> Result<bool, AllocError>
    requires { IsBare event.now }
    ensures { IfOk result (λ is. IsTrue is
        ↔ AllByRecursion (HasNoOther number event.now) rows.now) }
{
    for i in 0..rows.len() {
        if is_other_row_of(alloc, event, number, rows.at(i))? {
            return Ok(false);
        }
    }
    Ok(true)
}
