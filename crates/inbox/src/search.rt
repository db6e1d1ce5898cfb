//! Searches for a place in key order.

ghost use Rattle.std.specs.Prelude.{◌≡◌, ◌+◌, ◌<◌, ◌≤◌, ℕ, length, slice_get, Some, IfErr, IfNone, IfOk, IfSome, is_ok};
ghost use Rattle.attributes.specs.Fault.{IsEvent};
ghost use Rattle.inbox.specs.KeyOrder.{key_cmp, same_key};
ghost use Rattle.inbox.specs.Ordered.{IsGapFor, has};
ghost use Rattle.inbox.specs.Sets.{set_of};
ghost use Rattle.inbox.specs.Shown.{IsShownOf, NoneHas, has_key};
ghost use Rattle.inbox.specs.declared.places.Late.{Late};
ghost use Rattle.inbox.specs.steps.Reads.{ReadsAt, ReadsInOrder};
ghost use Rattle.inbox.specs.steps.Rows.{probe};
ghost use Rattle.inbox.specs.steps.Search.{IsLowerBound, LateEnd, SettledEnd};
ghost use Rattle.inbox.specs.steps.Woven.{Rise, StandsAt, order};

use crate::places::{Late, Places};
use attributes::Sequenced;
use std::cmp::Ordering;

/// A place in key order: behind so many settled positions and so many late ones.
#[derive(Clone, Copy)]
pub(crate) struct Gap {
    pub(crate) before: usize,
    pub(crate) late: usize,
}

/// How two events stand in key order: by source, then id, then canonical text.
pub fn compare_keys(event: &Sequenced, other: &Sequenced) -> Ordering
    ensures { result ≡ key_cmp event.now other.now }
{
    let (event, other) = (event.event(), other.event());
    match event.source().cmp(other.source()) {
        Ordering::Equal => match event.id().cmp(other.id()) {
            Ordering::Equal => event.compare(other),
            by_id => by_id,
        },
        by_source => by_source,
    }
}

/// How an event stands to a source, an id and a text, in key order.
fn compare(event: &Sequenced, source: &str, id: &str, text: &str) -> Ordering
    ensures { result ≡ probe source.now id.now text.now event.now }
{
    let event = event.event();
    match event.source().cmp(source) {
        Ordering::Equal => match event.id().cmp(id) {
            Ordering::Equal => event.text().cmp(text),
            by_id => by_id,
        },
        by_source => by_source,
    }
}

/// Whether two events have one key, which is source and id.
pub(crate) fn have_same_key(event: &Sequenced, other: &Sequenced) -> bool
    ensures { result ≡ same_key event.now other.now }
{
    let (event, other) = (event.event(), other.event());
    match event.source().cmp(other.source()) {
        Ordering::Equal => match event.id().cmp(other.id()) {
            Ordering::Equal => true,
            _ => false,
        },
        _ => false,
    }
}

/// The event at a position among the inbox's arrivals.
fn event_in(arrivals: &[Sequenced], position: usize) -> &Sequenced
    requires { position < length arrivals.now }
    ensures { slice_get arrivals.now position ≡ Some result.now }
{
    &arrivals[position]
}

/// The inbox's settled event at a place among the settled ones.
fn settled_event<'a>(arrivals: &'a [Sequenced], places: &Places, i: usize) -> &'a Sequenced
    requires reads { ReadsInOrder key_cmp arrivals.now (order places.now) }
    requires in_range { i < length places.now.settled }
    ensures { ReadsAt arrivals.now places.now.settled i result.now }
{
    event_in(arrivals, places.settled_at(i))
}

/// The inbox's event of a late position.
fn late_event<'a>(arrivals: &'a [Sequenced], places: &Places, late: Late) -> &'a Sequenced
    requires reads { ReadsInOrder key_cmp arrivals.now (order places.now) }
    requires is_late { (i : ℕ) × (slice_get places.now.late i ≡ Some late) }
    ensures { slice_get arrivals.now late.position ≡ Some result.now }
{
    event_in(arrivals, late.position)
}

/// The inbox's event at place i of key order.
pub(crate) fn event_at<'a>(arrivals: &'a [Sequenced], places: &Places, i: usize) -> &'a Sequenced
    requires reads { ReadsInOrder key_cmp arrivals.now (order places.now) }
    requires in_range { i < length (order places.now) }
    ensures { slice_get (set_of arrivals.now) i ≡ Some result.now }
{
    event_in(arrivals, places.at(i))
}

/// The position among the inbox's arrivals of the event at place i of key order.
pub(crate) fn position_at(arrivals: &[Sequenced], places: &Places, i: usize) -> usize
    requires reads { ReadsInOrder key_cmp arrivals.now (order places.now) }
    requires in_range { i < length (order places.now) }
    ensures { slice_get arrivals.now result ≡ slice_get (set_of arrivals.now) i }
{
    places.at(i)
}

/// Where a search in the inbox among places up to `len` looks next: at the last place first, since
/// what comes in key order goes behind it, and then in the middle.
fn next_probe(low: usize, high: usize, len: usize) -> usize
    requires { low < high }
    ensures low { low ≤ result }
    ensures high { result < high }
{
    if high == len {
        high - 1
    } else {
        low + (high - low) / 2
    }
}

/// How many settled events of the inbox are lesser in key order.
fn settled_before(
    arrivals: &[Sequenced],
    places: &Places,
    source: &str,
    id: &str,
    text: &str,
) -> usize
    requires reads { ReadsInOrder key_cmp arrivals.now (order places.now) }
    ensures { SettledEnd (probe source.now id.now text.now) arrivals.now places.now result }
{
    let len = places.settled_len();
    let mut low = 0;
    let mut high = len;
    while low < high {
        let mid = next_probe(low, high, len);
        match compare(settled_event(arrivals, places, mid), source, id, text) {
            Ordering::Less => low = mid + 1,
            _ => high = mid,
        }
    }
    low
}

/// How many of the inbox's late events stand before a place behind so many settled ones.
fn late_before(
    arrivals: &[Sequenced],
    places: &Places,
    before: usize,
    source: &str,
    id: &str,
    text: &str,
) -> usize
    requires reads { ReadsInOrder key_cmp arrivals.now (order places.now) }
    ensures rise { Rise 0 (length places.now.settled) places.now.late }
    ensures end { LateEnd (probe source.now id.now text.now) arrivals.now places.now before result }
{
    let len = places.late_len();
    let mut low = 0;
    let mut high = len;
    while low < high {
        let mid = next_probe(low, high, len);
        let late = places.late_at(mid);
        if late.before < before {
            low = mid + 1;
        } else if late.before > before {
            high = mid;
        } else {
            match compare(late_event(arrivals, places, late), source, id, text) {
                Ordering::Less => low = mid + 1,
                _ => high = mid,
            }
        }
    }
    low
}

/// The first place of the inbox's key order at which no lesser event stands.
pub(crate) fn lower_bound(
    arrivals: &[Sequenced],
    places: &Places,
    source: &str,
    id: &str,
    text: &str,
) -> Gap
    requires reads { ReadsInOrder key_cmp arrivals.now (order places.now) }
    ensures stands { StandsAt places.now result.before result.late }
    ensures bound { IsLowerBound (probe source.now id.now text.now) (set_of arrivals.now)
        (result.before + result.late) }
{
    let before = settled_before(arrivals, places, source, id, text);
    let late = late_before(arrivals, places, before, source, id, text);
    Gap { before, late }
}

/// The place in the inbox's key order where an event stands, or where it goes.
pub(crate) fn find(arrivals: &[Sequenced], places: &Places, event: &Sequenced) -> Result<usize, Gap>
    requires reads { ReadsInOrder key_cmp arrivals.now (order places.now) }
    ensures there { IfOk result (λ i. slice_get (set_of arrivals.now) i ≡ Some event.now) }
    ensures stands { IfErr result (λ gap. StandsAt places.now gap.before gap.late) }
    ensures gap { IfErr result (λ gap. IsGapFor key_cmp (set_of arrivals.now) event.now
        (gap.before + gap.late)) }
    ensures known { is_ok result ≡ has key_cmp arrivals.now event.now }
    ensures event { IsEvent event.now }
{
    let sought = event.event();
    let (source, id, text) = (sought.source(), sought.id(), sought.text());
    let gap = lower_bound(arrivals, places, source, id, text);
    let len = places.len();
    let at = gap.before + gap.late;
    if at < len {
        match event_at(arrivals, places, at).event().compare(sought) {
            Ordering::Equal => return Ok(at),
            _ => {}
        }
    }
    Err(gap)
}

/// Whether an event of the inbox has a source and an id.
fn is_of(event: &Sequenced, source: &str, id: &str) -> bool
    ensures { result ≡ has_key source.now id.now event.now }
{
    event.event().source() == source && event.event().id() == id
}

/// The inbox's first event of a source and an id in key order, where there is one: the empty text,
/// which is sought, is the least.
pub(crate) fn first_of<'a>(
    arrivals: &'a [Sequenced],
    places: &Places,
    source: &str,
    id: &str,
) -> Option<&'a Sequenced>
    requires reads { ReadsInOrder key_cmp arrivals.now (order places.now) }
    ensures some { IfSome result (λ e. IsShownOf (set_of arrivals.now) source.now id.now e.now) }
    ensures none { IfNone result (NoneHas (set_of arrivals.now) source.now id.now) }
{
    let gap = lower_bound(arrivals, places, source, id, "");
    let len = places.len();
    let at = gap.before + gap.late;
    if at >= len {
        return None;
    }
    let event = event_at(arrivals, places, at);
    if is_of(event, source, id) {
        Some(event)
    } else {
        None
    }
}
