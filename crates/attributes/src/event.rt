//! Events, built of parts.

ghost use Rattle.std.specs.Prelude.{◌≡◌, ◌≢◌, ◌↔◌, ◌≤◌, Err, IfErr, IfOk, Some, None, true, codes, length, nat_lt, option_and_then, option_map, string_bytes};
ghost use Rattle.std.specs.Option.{option_copied, option_or};
ghost use Rattle.std.specs.declared.cmp.Ordering.TheVariants.{Equal};
ghost use Rattle.attributes.specs.Bytes.{byte_cmp};
ghost use Rattle.attributes.specs.Character.{is_filled};
ghost use Rattle.std.specs.Str.{IsUtf8};
ghost use Rattle.attributes.specs.Members.{AreNamesInOrder, named, value_at};
ghost use Rattle.attributes.specs.steps.Kept.{IsCarriedBy, content_in};
ghost use Rattle.attributes.specs.steps.ObjectText.{IsPayloadOf};
ghost use Rattle.attributes.specs.steps.Place.{IsBody, attributes_in, id_in, kind_in, payload_in, source_in, text_of};
ghost use Rattle.attributes.specs.Event.{Lends, scalar_of, attribute_of, content_of, day_of, event_of, id_of, kind_of, scalars_of, source_of, subject_of, text, time_of, view_of, words_of, words_or_empty};
ghost use Rattle.attributes.specs.Time.{time_day};
ghost use Rattle.attributes.specs.Fault.{IsEvent, fault, max_text, member_fault, parts_of, payload_fault, with_given};
ghost use Rattle.attributes.specs.declared.content.Content.{Content};
ghost use Rattle.attributes.specs.declared.fault.Fault.TheVariants.{OutOfMemory, TooLarge};

use crate::body::{Attribute, Body, place_in, value_of};
use crate::canonical::{PayloadMember, canonical, payload_again, payload_of, sealed};
use crate::content::{Content, Kept, Offered, Payload};
use crate::fault::Fault;
use crate::list::List;
use crate::parts::{Parts, attribute_parts};
use crate::scalar::{Given, Scalar};
use crate::time::day_in;
use crate::validation::{first_member_fault, first_payload_fault, words_at, words_or_empty_at};
use std::alloc::{AllocError, Global};
use std::cmp::Ordering;
use std::collections::BTreeMap;
use std::marker::Model;

/// How many bytes a canonical text may have.
const MAX_TEXT: usize = 262_144;

/// An event (CloudEvents 1.0.2): its attributes, what it carries, and its canonical text. Two
/// events are equal exactly where their canonical texts are.
#[derive(Drop)]
pub struct Event {
    body: Body,
    kept: Kept,
    day: Option<i32>,
}

impl Model for Event {
    ghost use Rattle.attributes.specs.EventCode.{event_code};
    ghost use Rattle.attributes.specs.Event.{EventValue};
    ghost use Rattle.attributes.specs.steps.Kept.{IsKept, content_in, event_kept};
    ghost use Rattle.attributes.specs.steps.Place.{payload_in};

    ghost Value = { EventValue };

    ghost coded = { event_code };

    ghost view = { λ e. event_kept e.body e.kept };

    ghost invariant = { λ e. IsKept e.body (content_in (payload_in e.body) e.kept) e.day };
}

/// Events in an order.
pub type Events = List<Event>;

/// The text of an event's attribute, where it is one.
fn words_of<'a>(attribute: Option<Attribute<'a>>) -> Option<&'a str>
    ensures { option_copied result ≡ words_of (option_map scalar_of attribute.entry) }
{
    match attribute {
        Some(Attribute::Words(text)) => Some(text),
        _ => None,
    }
}

/// What an event carries of the data offered for it.
fn content_of(offered: Offered) -> Content
    ensures { result ≡ content_of offered }
{
    match offered {
        Offered::Tree(tree) => {
            if tree.is_null() {
                Content::Nothing
            } else {
                Content::Tree(tree)
            }
        }
        Offered::Bytes(bytes) => Content::Bytes(bytes),
        Offered::Nothing => Content::Nothing,
        Offered::Both => Content::Nothing,
        Offered::Undecodable => Content::Nothing,
    }
}

/// The UTC day of an event's time, where there is one.
fn time_day(time: Option<&str>) -> Option<i32>
    ensures { result ≡ option_and_then time_day (option_copied time.entry) }
{
    match time {
        Some(time) => day_in(time),
        None => None,
    }
}

/// What an event with these members and this payload keeps of its text, where that isn't too large.
fn body_of(
    alloc: Global,
    members: &BTreeMap<String, Given>,
    payload: &PayloadMember,
) -> Result<Body, Fault>
    requires members { member_fault (named members.now.entries) ≡ None }
    requires payload { (c : Content) × IsPayloadOf c payload.now }
    ensures text { IfOk result (λ b. (c : Content) → IsPayloadOf c payload.now
        → text_of b ≡ text (view_of (scalars_of (named members.now.entries)) c)) }
    ensures short { IfOk result (λ b. length (text_of b) ≤ max_text) }
    ensures utf8 { IfOk result (λ b. IsUtf8 (text_of b)) }
    ensures shows { IfOk result (λ b. attributes_in b ≡ scalars_of (named members.now.entries)) }
    ensures ordered { IfOk result (λ b. AreNamesInOrder (named members.now.entries)) }
    ensures payload { IfOk result (λ b. payload_in b ≡ string_bytes payload.now.json) }
    ensures body { IfOk result (λ b. IsBody b) }
    ensures source { IfOk result (λ b. source_in b ≡ words_or_empty
        (value_at (codes "source") (scalars_of (named members.now.entries)))) }
    ensures id { IfOk result (λ b. id_in b ≡ words_or_empty
        (value_at (codes "id") (scalars_of (named members.now.entries)))) }
    ensures kind { IfOk result (λ b. kind_in b ≡ words_or_empty
        (value_at (codes "type") (scalars_of (named members.now.entries)))) }
    ensures refused { IfErr result (λ f. f ≢ OutOfMemory → (f ≡ TooLarge)
        × ((c : Content) → IsPayloadOf c payload.now → nat_lt max_text
        (length (text (view_of (scalars_of (named members.now.entries)) c))) ≡ true)) }
{
    let source = words_or_empty_at(members, "source");
    let id = words_or_empty_at(members, "id");
    let room = source.len().saturating_add(id.len()).saturating_add(3);
    let draft = canonical(alloc, members, payload, room)?;
    if draft.text.len() > MAX_TEXT {
        return Err(Fault::TooLarge);
    }
    Ok(sealed(draft, source, id)?)
}

/// The event with these members and this payload, of which it keeps so much, unless it is too large.
fn event_of_payload(
    alloc: Global,
    members: &BTreeMap<String, Given>,
    payload: &PayloadMember,
    kept: Kept,
) -> Result<Event, Fault>
    requires members { member_fault (named members.now.entries) ≡ None }
    requires carried { IsCarriedBy payload.now (content_in (string_bytes payload.now.json) kept) }
    ensures event { IfOk result (λ e. (e ≡ view_of (scalars_of (named members.now.entries))
        (content_in (string_bytes payload.now.json) kept)) × (length (text e) ≤ max_text)) }
    ensures refused { IfErr result (λ f. f ≢ OutOfMemory → (f ≡ TooLarge) × (nat_lt max_text
        (length (text (view_of (scalars_of (named members.now.entries))
        (content_in (string_bytes payload.now.json) kept)))) ≡ true)) }
{
    let body = body_of(alloc, members, payload)?;
    let day = time_day(words_at(members, "time"));
    Ok(Event { body, kept, day })
}

impl Event {
    /// Tests the parts in the order of the faults, and answers the first one or the event. Want of
    /// memory may come in the place of `TooLarge` alone, since the text is made before it is
    /// measured.
    ///
    /// Time and memory in proportion to the parts' bytes.
    pub fn build(parts: Parts) -> Result<Event, Fault>
        ensures built { IfOk result (λ e. (fault parts ≡ None) × (e ≡ event_of parts)) }
        ensures refused { IfErr result (λ f. f ≢ OutOfMemory → fault parts ≡ Some f) }

        // These faults are found before any memory is asked for.
        ensures tested { (f : Fault)
            → option_or (member_fault parts.members) (payload_fault parts.offered) ≡ Some f
            → result ≡ Err f }
    {
        match first_member_fault(&parts.members) {
            None => {}
            Some(fault) => return Err(fault),
        }
        match first_payload_fault(&parts.offered) {
            None => {}
            Some(fault) => return Err(fault),
        }
        let content = content_of(parts.offered);
        let payload = payload_of(parts.alloc, &content)?;
        let kept = Kept::of(content);
        event_of_payload(parts.alloc, &parts.members, &payload, kept)
    }

    /// The canonical text: compact JSON, the members in byte order of their names, strings with the
    /// escapes `\"`, `\\`, `\b`, `\t`, `\n`, `\f`, `\r` and `\u00` with two lower-case hexadecimal
    /// digits for other control characters. At most 262,144 bytes. Takes no time.
    pub fn text(&self) -> &str
        ensures text { result.now ≡ text self.now }
        ensures event { IsEvent self.now }
    {
        self.body.text()
    }

    /// The value of an attribute of the event. Goes over the names.
    pub fn attribute(&self, name: &str) -> Option<Attribute<'_>>
        ensures { option_map scalar_of result ≡ attribute_of name.now self.now }
    {
        let text = self.body.text();
        let aside = self.body.aside();
        match place_in(text, aside, self.body.places.as_slice(), name) {
            Some(place) => Some(value_of(text, aside, place)),
            None => None,
        }
    }

    /// The attribute `id`, which tells the events of one source apart.
    pub fn id(&self) -> &str
        ensures value { result.now ≡ id_of self.now }
        ensures allowed { is_filled result.now ≡ true }
    {
        self.body.id()
    }

    /// The attribute `source`: where the event comes from.
    pub fn source(&self) -> &str
        ensures value { result.now ≡ source_of self.now }
        ensures allowed { is_filled result.now ≡ true }
    {
        self.body.source()
    }

    /// The attribute `type`: what happened. Takes no time.
    pub fn kind(&self) -> &str
        ensures value { result.now ≡ kind_of self.now }
        ensures allowed { is_filled result.now ≡ true }
    {
        self.body.kind()
    }

    /// The attribute `subject`, where it is there: what the event is about.
    pub fn subject(&self) -> Option<&str>
        ensures { option_copied result ≡ subject_of self.now }
    {
        words_of(self.attribute("subject"))
    }

    /// The attribute `time`, where it is there, as it was written (RFC 3339).
    pub fn time(&self) -> Option<&str>
        ensures { option_copied result ≡ time_of self.now }
    {
        words_of(self.attribute("time"))
    }

    /// The UTC day of `time`, where that is there: days from 1970-01-01, in -719,528 to 2,932,896.
    pub fn day(&self) -> Option<i32>
        ensures { result ≡ day_of self.now }
    {
        self.day
    }

    /// What the event carries: nothing, the compact text of a JSON value, which reads back as it
    /// (`laws::data_reads_back`), or bytes. Takes no time and no memory.
    pub fn content(&self) -> Payload<'_>
        ensures { Lends result self.now.content }
    {
        match &self.kept {
            Kept::Nothing => Payload::Nothing,
            Kept::Json => Payload::Json(self.body.payload()),
            Kept::Bytes(bytes) => Payload::Bytes(bytes.as_bytes()),
        }
    }

    /// The event with this value as the attribute of the name, in place of the one that it had, if
    /// any: what [`Event::build`] makes of its parts then, but its data is copied as it stands. Time
    /// and memory in proportion to its text.
    ///
    /// The first fault of these parts, in the order of the faults; or want of memory.
    pub fn with_attribute(&self, alloc: Global, name: &str, value: Given) -> Result<Event, Fault>
        ensures built { IfOk result (λ e. (fault (with_given name.now value (parts_of self.now)) ≡ None)
            × (e ≡ event_of (with_given name.now value (parts_of self.now)))) }
        ensures refused { IfErr result (λ f. f ≢ OutOfMemory
            → fault (with_given name.now value (parts_of self.now)) ≡ Some f) }
        ensures event { IsEvent self.now }
    {
        let text = self.body.text();
        let aside = self.body.aside();
        let mut parts = attribute_parts(alloc, text, aside, self.body.places.as_slice())?;
        parts.set(name, value)?;
        match first_member_fault(&parts.members) {
            None => {}
            Some(fault) => return Err(fault),
        }
        let payload = payload_again(alloc, self.body.payload(), &self.kept)?;
        let kept = self.kept.copy()?;
        event_of_payload(alloc, &parts.members, &payload, kept)
    }

    /// An event value that is equal. Time and memory in proportion to its text.
    pub fn copy(&self) -> Result<Event, AllocError>
        ensures { IfOk result (λ e. e ≡ self.now) }
    {
        let body = self.body.copy()?;
        let kept = self.kept.copy()?;
        Ok(Event {
            body,
            kept,
            day: self.day,
        })
    }

    /// The order of two events' canonical texts as bytes.
    pub fn compare(&self, other: &Event) -> Ordering
        ensures order { result ≡ byte_cmp (text self.now) (text other.now) }
        ensures same { (result ≡ Equal) ↔ (self.now ≡ other.now) }
    {
        self.body.text().cmp(other.body.text())
    }
}
