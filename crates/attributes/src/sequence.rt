//! Sequence numbers, and events that have one.

ghost use Rattle.std.specs.Prelude.{◌≡◌, ◌≤◌, ℕ, if◌then◌else◌, IfErr, IfOk, None, Some, option_and_then, option_map};
ghost use Rattle.attributes.specs.Fault.{IsEvent};
ghost use Rattle.attributes.specs.Event.{scalar_of, words_of};
ghost use Rattle.attributes.specs.Sequence.{fault_at, is_sequence, max_sequence, number_of, sequence_fault, sequence_of};

use crate::body::Attribute;
use crate::character::are_digits;
use crate::event::Event;
use crate::fault::Fault;
use crate::text::Text;
use std::alloc::{AllocError, Global};
use std::marker::Model;

/// The greatest sequence number, 2^63 - 1: what an integer of a database holds.
pub const MAX_SEQUENCE: u64 = 9_223_372_036_854_775_807;

/// The number of an event among those of its source, in 1..=[`MAX_SEQUENCE`].
#[derive(Clone, Copy, PartialEq, Eq, Debug)]
pub struct Sequence {
    number: u64,
}

impl Model for Sequence {
    ghost use Rattle.std.specs.Prelude.{◌≡◌, ℕ, true};
    ghost use Rattle.attributes.specs.Sequence.{is_sequence};

    ghost Value = { ℕ };

    ghost view = { λ s. s.number };

    ghost invariant = { λ s. is_sequence s.number ≡ true };

    ghost inverse = { λ n. record { number = n } };
}

impl Sequence {
    /// Reads exactly twenty digits of ASCII as a sequence number. At a fixed width the order of the
    /// texts as bytes is that of the numbers.
    pub fn of_text(text: &str) -> Option<Sequence>
        ensures { result ≡ sequence_of text.now }
    {
        if text.len() != 20 || !are_digits(text) {
            return None;
        }
        match text.parse::<u64>() {
            Ok(number) => Sequence::of_u64(number),
            Err(_) => None,
        }
    }

    /// An event's sequence number from a whole number, where it is in range.
    pub fn of_u64(number: u64) -> Option<Sequence>
        ensures { result ≡ (if is_sequence number then Some number else None) }
    {
        if number >= 1 && number <= MAX_SEQUENCE {
            Some(Sequence { number })
        } else {
            None
        }
    }

    /// The twenty digits of the sequence number.
    pub fn digits(self, alloc: Global) -> Result<Text, AllocError>
        ensures { IfOk result (λ t. sequence_of t ≡ Some self) }
    {
        let digits = format!(in alloc; "{}", self.number)?;
        let mut text = String::with_capacity(alloc, 20)?;
        for _place in digits.as_str().len()..20 {
            text.push('0')?;
        }
        text.push_str(digits.as_str())?;
        Ok(Text::from_string(text))
    }

    /// The sequence number, from 1 on.
    pub fn number(self) -> u64
        ensures value { result ≡ self }
        ensures low { 1 ≤ result }
        ensures high { result ≤ max_sequence }
    {
        self.number
    }
}

/// An event that has a number; seen as the event.
#[derive(Drop)]
pub struct Sequenced {
    event: Event,
    sequence: Sequence,
}

impl Model for Sequenced {
    ghost use Rattle.std.specs.Prelude.{◌≡◌, Some};
    ghost use Rattle.attributes.specs.EventCode.{event_code};
    ghost use Rattle.attributes.specs.Event.{EventValue};
    ghost use Rattle.attributes.specs.Sequence.{number_of};

    ghost Value = { EventValue };

    ghost coded = { event_code };

    ghost view = { λ s. s.event };

    ghost invariant = { λ s. number_of s.event ≡ Some s.sequence };
}

/// An event without a number, and why it has none: `NoSequence` or `BadSequence`.
#[derive(Drop)]
pub struct Unsequenced {
    pub event: Event,
    pub fault: Fault,
}

/// The sequence number of an attribute, where it is a text that has one.
fn number_at(attribute: Option<Attribute<'_>>) -> Option<Sequence>
    ensures { result
        ≡ option_and_then sequence_of (words_of (option_map scalar_of attribute.entry)) }
{
    match attribute {
        Some(Attribute::Words(text)) => Sequence::of_text(text),
        _ => None,
    }
}

/// Why an attribute is no sequence number.
fn fault_at(attribute: Option<Attribute<'_>>) -> Fault
    ensures { result ≡ fault_at (option_map scalar_of attribute.entry) }
{
    match attribute {
        Some(_) => Fault::BadSequence,
        None => Fault::NoSequence,
    }
}

impl Sequenced {
    /// The event with the number of its attribute `sequence` (CloudEvents Sequence extension):
    /// twenty digits whose number is in 1..=9,223,372,036,854,775,807. Otherwise the event comes
    /// back with the reason.
    pub fn of(event: Event) -> Result<Sequenced, Unsequenced>
        ensures ok { IfOk result (λ s. s ≡ event) }
        ensures numbered { IfOk result (λ s. (n : ℕ) × (number_of event ≡ Some n)) }
        ensures event { IfOk result (λ s. IsEvent s) }
        ensures refused { IfErr result (λ u. number_of event ≡ None) }
        ensures handed_back { IfErr result (λ u. u.event ≡ event) }
        ensures fault { IfErr result (λ u. u.fault ≡ sequence_fault event) }
    {
        let sequence = number_at(event.attribute("sequence"));
        match sequence {
            Some(sequence) => Ok(Sequenced { event, sequence }),
            None => {
                let fault = fault_at(event.attribute("sequence"));
                Err(Unsequenced { event, fault })
            }
        }
    }

    /// The event that has a sequence number, lent.
    pub fn event(&self) -> &Event
        ensures { result.now ≡ self.now }
    {
        &self.event
    }

    /// The number of the event's attribute `sequence`.
    pub fn number(&self) -> Sequence
        ensures { number_of self.now ≡ Some result }
    {
        self.sequence
    }

    /// A numbered event that is equal. Time and memory in proportion to its text.
    pub fn copy(&self) -> Result<Sequenced, AllocError>
        ensures { IfOk result (λ s. s ≡ self.now) }
    {
        let event = self.event.copy()?;
        Ok(Sequenced {
            event,
            sequence: self.sequence,
        })
    }
}
