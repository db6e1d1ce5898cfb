//! Events read from JSON: one alone, or a batch.
ghost use Rattle.std.specs.Prelude.{◌≡◌, ◌≢◌, ◌<◌, ℕ, List, [], ◌∷◌, ◌++◌, length, map, option_map, Err, IfOk, IfErr, IfSome, OnOk};
ghost use Rattle.base64.specs.Engines.{standard};
ghost use Rattle.base64.specs.GeneralPurpose.{decode_of};
ghost use Rattle.serde_json.specs.Data.{Data, object};
ghost use Rattle.serde_json.specs.Find.{as_i64};
ghost use Rattle.serde_json.specs.View.{view, number_view, members_view};
ghost use Rattle.attributes.specs.Event.{EventValue};
ghost use Rattle.attributes.specs.JsonText.{IsJsonText};
ghost use Rattle.event_json.specs.Payload.{unless_null, payload, bytes_in, decoded};
ghost use Rattle.event_json.specs.Spelling.{given_whole, given_in, spelled, parts_in, fault_in, event_in};
ghost use Rattle.event_json.specs.Reading.{Spells, IsNoSpelling, Reads, Refuses, max_input};
ghost use Rattle.event_json.specs.Parts.{PartsSpellBoth, SpellsSome, WholesRead, part_text};
ghost use Rattle.event_json.specs.steps.Outcome.{IsReadingOutcome, ok_of, result_of};
ghost use Rattle.event_json.specs.steps.Walk.{bad, bad_or, first_bad};

use crate::fault::ReadFault;
use crate::pieces::{Gather, read_batch_text, read_part};
use attributes::{Event, Events, Fault, Given, Octets, Offered, Parts, Text, Tree};
use base64::DecodeAllocError;
use base64::engine::general_purpose::STANDARD;
use serde_json::{Category, Map, Number, Value};
use std::alloc::{AllocError, Global};

/// The greatest length of an input, in bytes (32 MiB).
pub const MAX_INPUT: u64 = 33_554_432;

/// Reads the events that a JSON object or an array of objects spells, in their order (CloudEvents
/// JSON Event Format 1.0.2, sections 3 and 4). A member that is null is unset, and of a name that
/// stands twice the last value counts.
///
/// The refusals are tested in the order that [`ReadFault`] gives, and the first member of a batch
/// that is no event is named. Too much is refused before any memory is asked for, and want of
/// memory is never the fault of a member.
///
/// Time and memory are proportional to the length of the input. A batch is read member by member,
/// and the tree of each is given back before the next is read. What no such reading finds to be a
/// batch (one event alone, no JSON) is read once more, as one tree: that of `[0,0,..` without its
/// bracket takes about twenty times the length of the input.
pub fn read_events(alloc: Global, bytes: &[u8]) -> Result<Events, ReadFault>
    ensures ok { IfOk result (λ l. Reads bytes.now l) }
    ensures refused { IfErr result (λ f. f ≢ ReadFault.OutOfMemory → Refuses bytes.now f) }
    ensures too_large { max_input < length bytes.now → result ≡ Err ReadFault.InputTooLarge }
    ensures limit { MAX_INPUT ≡ max_input }
    ensures named { IfErr result (λ f. (i : ℕ) → f ≢ ReadFault.BadEvent i Fault.OutOfMemory) }
    ensures memory { IfErr result (λ f. f ≡ ReadFault.OutOfMemory → 0 < length bytes.now) }
{
    if bytes.len() as u64 > MAX_INPUT {
        return Err(ReadFault::InputTooLarge);
    }
    if let Some(outcome) = read_batch_text(alloc, bytes, Outcome::empty(alloc))? {
        return outcome.result();
    }
    let value = parse(alloc, bytes)?;
    read_value(alloc, value)
}

/// The events that a part of a batch spells, which stands between two commas unless it begins or
/// ends the batch (CloudEvents JSON Event Format 1.0.2, section 4). `None` says nothing of the
/// bytes: they may spell events all the same. For readers that read parts side by side.
pub fn read_part_events(
    alloc: Global,
    bytes: &[u8],
    opened: bool,
    closed: bool,
) -> Result<Option<Events>, AllocError>
    ensures { IfOk result (λ o. IfSome o (λ l. SpellsSome (part_text opened bytes.now closed) l)) }
{
    match read_part(alloc, bytes, opened, closed, Outcome::empty(alloc))? {
        Some(outcome) => Ok(outcome.events_alone()),
        None => Ok(None),
    }
}

/// Parts of a batch that were read, with a comma between them, are what they are together: for
/// readers that read parts side by side.
pub fn batch_parts_join()
    ensures join { PartsSpellBoth }
    ensures whole { WholesRead }
{}

/// What the members of a batch that were read come to: their events, or the first that is none.
#[derive(Drop)]
struct Outcome {
    /// The events of the members before the first that is none.
    events: Events,
    /// The refusal of the first that is none.
    refusal: Option<ReadFault>,
}

impl Outcome {
    /// What reading a batch without members comes to.
    fn empty(alloc: Global) -> Outcome
        ensures { IsReadingOutcome result [] }
    {
        Outcome {
            events: Events::empty(alloc),
            refusal: None,
        }
    }

    /// The events that were read from a batch, or its refusal.
    fn result(self) -> Result<Events, ReadFault>
        ensures { result ≡ result_of self }
    {
        match self.refusal {
            None => Ok(self.events),
            Some(refusal) => Err(refusal),
        }
    }

    /// The events that were read from a batch, where no member is refused.
    fn events_alone(self) -> Option<Events>
        ensures { result ≡ ok_of (result_of self) }
    {
        match self.refusal {
            None => Some(self.events),
            Some(_) => None,
        }
    }
}

impl Gather for Outcome {
    ghost is_of = { IsReadingOutcome };

    fn add(self, alloc: Global, _text: &[u8], members: Vec<Value>) -> Result<Outcome, AllocError> {
        let Outcome {
            mut events,
            refusal,
        } = self;
        if let Some(refusal) = refusal {
            return Ok(Outcome {
                events,
                refusal: Some(refusal),
            });
        }
        match push_events(alloc, &mut events, members) {
            Ok(()) => Ok(Outcome {
                events,
                refusal: None,
            }),
            Err(refusal) => match refusal {
                ReadFault::OutOfMemory => Err(AllocError),
                _ => Ok(Outcome {
                    events,
                    refusal: Some(refusal),
                }),
            },
        }
    }
}

/// Bytes spell at most one list of events, and are refused only where they spell none.
pub fn readings_are_one()
    ensures one { (b : List ℕ) (l m : List EventValue) → Reads b l → Reads b m → l ≡ m }
    ensures apart { (b : List ℕ) (l : List EventValue) (f : ReadFault)
        → Reads b l → Refuses b f → ⊥ }
{}

/// The bytes of an input, an event or a batch, as a JSON value.
pub fn parse(alloc: Global, bytes: &[u8]) -> Result<Value, ReadFault>
    ensures value { IfOk result (λ v. IsJsonText bytes.now (view v)) }
    ensures fault { IfErr result (λ f. f ≢ ReadFault.OutOfMemory → f ≡ ReadFault.NotJson) }
    ensures none { IfErr result (λ f. f ≢ ReadFault.OutOfMemory
        → (d : Data) → IsJsonText bytes.now d → ⊥) }
    ensures some { IfOk result (λ v. 0 < length bytes.now) }
    ensures memory { IfErr result (λ f. f ≡ ReadFault.OutOfMemory → 0 < length bytes.now) }
{
    match Value::from_slice(alloc, bytes) {
        Ok(value) => Ok(value),
        Err(e) => match e.classify() {
            Category::Memory => Err(ReadFault::OutOfMemory),
            _ => Err(ReadFault::NotJson),
        },
    }
}

/// The events of a JSON object, which is one event, or of an array, which is a batch.
fn read_value(alloc: Global, value: Value) -> Result<Events, ReadFault>
    ensures ok { IfOk result (λ l. Spells (view value) l) }
    ensures refused { IfErr result (λ f. f ≢ ReadFault.OutOfMemory
        → IsNoSpelling (view value) f) }
{
    match value {
        Value::Object(members) => read_single(alloc, members),
        Value::Array(items) => read_batch(alloc, items),
        _ => Err(ReadFault::NotEvent),
    }
}

/// The event of a JSON object that stands alone.
fn read_single(alloc: Global, members: Map<String, Value>) -> Result<Events, ReadFault>
    ensures ok { IfOk result (λ l. (fault_in (object (members_view members.entries)) ≡ None)
        × (l ≡ event_in (object (members_view members.entries)) ∷ [])) }
    ensures refused { IfErr result (λ f. f ≢ ReadFault.OutOfMemory
        → bad_or 0 (fault_in (object (members_view members.entries))) None ≡ Some f) }
{
    let mut events = Events::empty(alloc);
    match read_event(alloc, members) {
        Ok(event) => events.push(event)?,
        Err(fault) => return Err(refusal(0, fault)),
    }
    Ok(events)
}

/// The events of a JSON array's items. The tree of each is given back as soon as its event stands.
fn read_batch(alloc: Global, items: Vec<Value>) -> Result<Events, ReadFault>
    ensures ok { IfOk result (λ l. (first_bad 0 (map view items.items) ≡ None)
        × (l ≡ map event_in (map view items.items))) }
    ensures refused { IfErr result (λ f. f ≢ ReadFault.OutOfMemory
        → first_bad 0 (map view items.items) ≡ Some f) }
{
    let mut events = Events::empty(alloc);
    push_events(alloc, &mut events, items)?;
    Ok(events)
}

/// Puts the events of a batch's items behind those that are there, each of an item; the index of
/// one that is refused counts those too.
fn push_events(alloc: Global, events: &mut Events, items: Vec<Value>) -> Result<(), ReadFault>
    ensures ok { OnOk result ((first_bad (length events.old) (map view items.items) ≡ None)
        × (events.new ≡ events.old ++ map event_in (map view items.items))) }
    ensures refused { IfErr result (λ f. f ≢ ReadFault.OutOfMemory
        → first_bad (length events.old) (map view items.items) ≡ Some f) }
{
    for item in items {
        match read_item(alloc, item) {
            Ok(event) => events.push(event)?,
            Err(fault) => return Err(refusal(events.len(), fault)),
        }
    }
    Ok(())
}

/// The refusal of the batch's value at the index, for its fault.
fn refusal(index: u64, fault: Fault) -> ReadFault
    ensures value { result ≢ ReadFault.OutOfMemory → result ≡ bad index fault }
    ensures cause { result ≢ ReadFault.OutOfMemory → fault ≢ Fault.OutOfMemory }
{
    match fault {
        Fault::OutOfMemory => ReadFault::OutOfMemory,
        _ => ReadFault::BadEvent { index, fault },
    }
}

/// The event of a batch's item. What is no object has no version.
pub fn read_item(alloc: Global, item: Value) -> Result<Event, Fault>
    ensures ok { IfOk result (λ e. fault_in (view item) ≡ None) }
    ensures built { IfOk result (λ e. e ≡ event_in (view item)) }
    ensures refused { IfErr result (λ f. f ≢ Fault.OutOfMemory → fault_in (view item) ≡ Some f) }
{
    match item {
        Value::Object(members) => read_event(alloc, members),
        _ => Err(Fault::SpecVersion),
    }
}

/// The event that a JSON object's members spell.
fn read_event(alloc: Global, members: Map<String, Value>) -> Result<Event, Fault>
    ensures ok { IfOk result (λ e. fault_in (object (members_view members.entries)) ≡ None) }
    ensures built { IfOk result (λ e. e ≡ event_in (object (members_view members.entries))) }
    ensures refused { IfErr result (λ f. f ≢ Fault.OutOfMemory
        → fault_in (object (members_view members.entries)) ≡ Some f) }
{
    Event::build(event_parts(alloc, members)?)
}

/// The parts of an event that a JSON object's members spell. The payload members are taken out
/// first, so that their values are moved and not copied.
fn event_parts(alloc: Global, mut members: Map<String, Value>) -> Result<Parts, AllocError>
    ensures { IfOk result (λ p. p ≡ parts_in (members_view members.entries)) }
{
    let tree = members.remove("data");
    let coded = members.remove("data_base64");
    let mut parts = attribute_parts(alloc, members)?;
    parts.offer(payload(alloc, unless_null(tree), unless_null(coded))?);
    Ok(parts)
}

/// The parts of an event of JSON members that are all attributes. A map's names are in order and
/// each stands once, so each part is new, and, from the last name on, the first one at once.
fn attribute_parts(alloc: Global, members: Map<String, Value>) -> Result<Parts, AllocError>
    ensures { IfOk result (λ p. p ≡ record {
      members = spelled (members_view members.entries);
      offered = Offered.Nothing;
    }) }
{
    let mut parts = Parts::empty(alloc);
    for (name, value) in members.into_iter().rev() {
        if let Some(given) = given_in(value) {
            parts.insert(name, given)?;
        }
    }
    Ok(parts)
}

/// What a JSON member's value offers for an attribute, where it is set.
fn given_in(value: Value) -> Option<Given>
    ensures { result ≡ given_in (view value) }
{
    match value {
        Value::Null => None,
        Value::Bool(flag) => Some(Given::Flag(flag)),
        Value::Number(number) => Some(given_whole(&number)),
        Value::String(words) => Some(Given::Words(Text::from_string(words))),
        Value::Array(_) => Some(Given::Other),
        Value::Object(_) => Some(Given::Other),
    }
}

/// What a JSON number offers: a whole number of 32 bits, or no value of an attribute.
fn given_whole(number: &Number) -> Given
    ensures { result ≡ given_whole (as_i64 (number_view number.now)) }
{
    match number.as_i64() {
        Some(n) if n >= -2_147_483_648 && n < 2_147_483_648 => Given::Whole(n as i32),
        _ => Given::Other,
    }
}

/// The member of a JSON object, unless it is null.
fn unless_null(member: Option<Value>) -> Option<Value>
    ensures { option_map view result ≡ unless_null (option_map view member) }
{
    match member {
        Some(Value::Null) => None,
        other => other,
    }
}

/// What the JSON members `data` and `data_base64` offer.
fn payload(alloc: Global, tree: Option<Value>, coded: Option<Value>) -> Result<Offered, AllocError>
    ensures { IfOk result (λ o. o ≡ payload (option_map view tree) (option_map view coded)) }
{
    match (tree, coded) {
        (None, None) => Ok(Offered::Nothing),
        (Some(tree), None) => Ok(Offered::Tree(Tree::of(tree))),
        (None, Some(coded)) => bytes_in(alloc, coded),
        (Some(_), Some(_)) => Ok(Offered::Both),
    }
}

/// The bytes of a JSON member's text in Base64.
fn bytes_in(alloc: Global, coded: Value) -> Result<Offered, AllocError>
    ensures { IfOk result (λ o. o ≡ bytes_in (view coded)) }
{
    match coded {
        Value::String(text) => decoded(alloc, text.as_str()),
        _ => Ok(Offered::Undecodable),
    }
}

/// The bytes of `data_base64`, where the text can be decoded.
fn decoded(alloc: Global, text: &str) -> Result<Offered, AllocError>
    ensures { IfOk result (λ o. o ≡ decoded (decode_of standard text.now)) }
{
    match STANDARD.decode(alloc, text.as_bytes()) {
        Ok(bytes) => Ok(Offered::Bytes(Octets::from_vec(bytes))),
        Err(DecodeAllocError::DecodeError(_)) => Ok(Offered::Undecodable),
        Err(DecodeAllocError::OutOfMemory) => Err(AllocError),
    }
}
