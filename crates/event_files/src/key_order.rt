//! Puts the events of a file in key order. Most of what it takes to compare two keys is to wait
//! for their bytes, so eight bytes of each are brought together, sorted as numbers, and only where
//! these are alike are the next eight looked at.
ghost use Rattle.std.specs.List.Sorted.{IsPermutation};

use attributes::Sequenced;
use inbox::compare_keys;
use std::alloc::{AllocError, Global};
use std::cmp::Ordering;

/// How many times eight bytes of keys are looked at; behind them, whole keys are compared.
const DEPTH: u32 = 32;

/// Of so few events whole keys are compared.
const FEW: usize = 8;

/// Where an event of a file stands, and eight bytes of its key.
#[derive(Clone, Copy)]
struct Place {
    bytes: u64,
    at: usize,
}

/// Eight bytes of a key's text from a place on, as a number that stands to others as they do to
/// theirs; behind the end of the text stand zeros.
fn bytes_at(text: &[u8], from: usize) -> u64 {
    let rest = text.get(from..).unwrap_or(&[]);
    if let Some(bytes) = rest.first_chunk() {
        return u64::from_be_bytes(*bytes);
    }
    let mut number = 0;
    for i in 0..8 {
        let byte = rest.get(i).copied().unwrap_or(0);
        number = number << 8 | byte as u64;
    }
    number
}

/// The eight bytes of an event's key behind so many times eight: of its source, then of its id.
fn key_bytes(event: &Sequenced, depth: u32) -> u64 {
    let depth = depth as usize;
    let source = event.event().source().as_bytes();
    let own = source.len() / 8 + 1;
    if depth < own {
        bytes_at(source, depth * 8)
    } else {
        bytes_at(event.event().id().as_bytes(), (depth - own) * 8)
    }
}

/// How two events of a file stand in key order, by where they stand in the file.
fn compare_at(events: &[Sequenced], one: usize, other: usize) -> Ordering {
    match (events.get(one), events.get(other)) {
        (Some(event), Some(other)) => compare_keys(event, other),
        _ => Ordering::Equal,
    }
}

/// Sorts the places of events by the rest of their keys, of which they have the same bytes before.
/// So many times eight bytes are left to be looked at.
#[cycle(left)]
fn sort_places(events: &[Sequenced], places: &mut [Place], left: u32) {
    if left == 0 || places.len() <= FEW {
        places.sort_unstable_by(|one, other| compare_at(events, one.at, other.at));
        return;
    }
    let depth = DEPTH.saturating_sub(left);
    for place in places.iter_mut() {
        if let Some(event) = events.get(place.at) {
            place.bytes = key_bytes(event, depth);
        }
    }
    places.sort_unstable_by_key(|place| place.bytes);
    for alike in places.chunk_by_mut(|one, other| one.bytes == other.bytes) {
        if alike.len() > 1 {
            sort_places(events, alike, left - 1);
        }
    }
}

/// Moves the events of a file to where an order wants them, one cycle of it after the other. Each
/// place is marked as done, so the time is in proportion to the events.
fn arrange(events: &mut Vec<Sequenced>, order: &mut [Place])
    ensures { IsPermutation events.old.items events.new.items }
{
    let len = events.len();
    for start in 0..len {
        let mut at = start;
        for _ in start..len {
            let Some(place) = order.get_mut(at) else {
                break;
            };
            let next = place.at;
            place.at = at;
            if next == start || next >= len {
                break;
            }
            events.swap(at, next);
            at = next;
        }
    }
}

/// Sorts the events of a file by their keys. That they are sorted has no clause, since it serves
/// speed alone.
pub(crate) fn sort_events(alloc: Global, events: &mut Vec<Sequenced>) -> Result<(), AllocError>
    ensures { IsPermutation events.old.items events.new.items }
{
    let mut order = Vec::with_capacity(alloc, events.len())?;
    for at in 0..events.len() {
        order.push(Place { bytes: 0, at })?;
    }
    sort_places(events, &mut order, DEPTH);
    arrange(events, &mut order);
    Ok(())
}
