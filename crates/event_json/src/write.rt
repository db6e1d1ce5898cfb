//! Events written as JSON.
ghost use Rattle.std.specs.Prelude.{◌≡◌, ◌≤◌, ◌<◌, Some, List, [], ◌∷◌, ◌++◌, length, map, slice_get, IfOk, IfSome, OnOk, string_bytes};
ghost use Rattle.std.specs.List.{AllByRecursion};
ghost use Rattle.attributes.specs.Event.{EventValue, text};
ghost use Rattle.attributes.specs.Fault.{IsEvent};
ghost use Rattle.event_json.specs.Reading.{Reads, max_input};
ghost use Rattle.event_json.specs.BatchText.{batch_text};
ghost use Rattle.event_json.specs.steps.Joined.{separated};

use attributes::laws::{
    exact_json_reads_back, objects_hold_attributes, parts_make_events, text_reads_back,
    text_tells_events,
};
use attributes::{Batch, Event, Events, Sequenced, Text};
use std::alloc::{AllocError, Global};

/// Writes the event's canonical text, in time and memory proportional to its length.
pub fn write_event(alloc: Global, event: &Event) -> Result<Text, AllocError>
    ensures { IfOk result (λ t. t ≡ text event.now) }
{
    Text::of(alloc, event.text())
}

/// Writes a batch: the canonical texts in their order, joined by commas, in brackets (CloudEvents
/// JSON Event Format 1.0.2, section 4). Within the limit of inputs it is read back as the same
/// events. Time and memory are proportional to its length, and the text is made in one piece.
pub fn write_batch(alloc: Global, events: &Events) -> Result<Text, AllocError>
    ensures text { IfOk result (λ t. t ≡ batch_text events.now) }
    ensures reads_back { IfOk result (λ t. length t ≤ max_input → Reads t events.now) }
{
    write_list(alloc, events)
}

/// As [`write_batch`], of a batch's events that have a number.
pub fn write_sequenced(alloc: Global, batch: &Batch) -> Result<Text, AllocError>
    ensures text { IfOk result (λ t. t ≡ batch_text batch.now) }
    ensures reads_back { IfOk result (λ t. length t ≤ max_input → Reads t batch.now) }
{
    write_list(alloc, batch)
}

/// As [`write_batch`], of events that have a number and are lent.
pub fn write_lent(alloc: Global, events: &[&Sequenced]) -> Result<Text, AllocError>
    ensures text { IfOk result (λ t. t ≡ batch_text (map (λ e. e.now) events.now)) }
    ensures reads_back { IfOk result (λ t. length t ≤ max_input
        → Reads t (map (λ e. e.now) events.now)) }
{
    write_list(alloc, &Lent { events })
}

/// Different lists of events have different batch texts.
pub fn batch_texts_tell_lists()
    ensures { (l m : List EventValue) → AllByRecursion IsEvent l → AllByRecursion IsEvent m
        → batch_text l ≡ batch_text m → l ≡ m }
{
    objects_hold_attributes();
    exact_json_reads_back();
    text_tells_events();
}

/// The batch text of events, where it is within the limit of inputs, spells those events.
pub fn batch_texts_read_back()
    ensures { (l : List EventValue) → AllByRecursion IsEvent l
        → length (batch_text l) ≤ max_input → Reads (batch_text l) l }
{
    objects_hold_attributes();
    exact_json_reads_back();
    parts_make_events();
}

/// The canonical text of an event spells that event.
pub fn texts_read_back()
    ensures { (e : EventValue) → IsEvent e → Reads (text e) (e ∷ []) }
{
    objects_hold_attributes();
    exact_json_reads_back();
    parts_make_events();
    text_reads_back();
}

/// A list whose members are events.
trait EventList {
    ghost use Rattle.std.specs.Prelude.{List};
    ghost use Rattle.attributes.specs.Event.{EventValue};

    ghost list: { Self → List EventValue };

    /// How many events there are for a batch's text.
    fn count(&self) -> u64
        ensures { result ≡ length (list self.now) };

    /// The event at a place, from 0 on, for a batch's text.
    fn event_at(&self, i: u64) -> &Event
        requires { i < length (list self.now) }
        ensures { slice_get (list self.now) i ≡ Some result.now };
}

impl EventList for Events {
    ghost list = { λ l. l };

    fn count(&self) -> u64 {
        self.len()
    }

    fn event_at(&self, i: u64) -> &Event {
        self.at(i)
    }
}

impl EventList for Batch {
    ghost list = { λ l. l };

    fn count(&self) -> u64 {
        self.len()
    }

    fn event_at(&self, i: u64) -> &Event {
        self.at(i).event()
    }
}

/// A batch's events where they stand.
#[derive(Drop)]
struct Lent<'a> {
    events: &'a [&'a Sequenced],
}

impl EventList for Lent<'_> {
    ghost use Rattle.std.specs.Prelude.{map};

    ghost list = { λ l. map (λ e. e.now) l.events.now };

    fn count(&self) -> u64 {
        self.events.len() as u64
    }

    fn event_at(&self, i: u64) -> &Event {
        self.events[i as usize].event()
    }
}

/// Writes the JSON batch of the list's events, in one piece that has room for the end of a line.
fn write_list<L: EventList>(alloc: Global, list: &L) -> Result<Text, AllocError>
    ensures text { IfOk result (λ t. t ≡ batch_text (L.list list.now)) }
    ensures reads_back { IfOk result (λ t. length t ≤ max_input → Reads t (L.list list.now)) }
{
    batch_texts_read_back();
    let len = text_len(list).ok_or(AllocError)?;
    // Most callers put the end of a line behind it.
    let mut out = String::with_capacity(alloc, len.saturating_add(1))?;
    out.push_str("[")?;
    for i in 0..list.count() {
        append_event(&mut out, i == 0, list.event_at(i))?;
    }
    out.push_str("]")?;
    Ok(Text::from_string(out))
}

/// The length of the text of a batch of the list, unless it is beyond all memory.
fn text_len<L: EventList>(list: &L) -> Option<usize>
    ensures { IfSome result (λ n. n ≡ length (batch_text (L.list list.now))) }
{
    let mut len: usize = 2;
    for i in 0..list.count() {
        len = len.checked_add(list.event_at(i).text().len())?;
        if i > 0 {
            len = len.checked_add(1)?;
        }
    }
    Some(len)
}

/// Writes an event of a batch, with a comma before it unless it is the first.
fn append_event(out: &mut String, first: bool, event: &Event) -> Result<(), AllocError>
    ensures text { OnOk result (string_bytes out.new
        ≡ string_bytes out.old ++ separated first (text event.now)) }
    ensures event { IsEvent event.now }
{
    let text = event.text();
    if !first {
        out.push_str(",")?;
    }
    out.push_str(text)
}
