//! Tables of what events have, by key. Keys are lent by the events.

ghost use Rattle.std.specs.Prelude.{◌≡◌, ◌+◌, ◌<◌, ◌^◌, ◌&&◌, [], IfOk, IsTrue, OnOk, false, filter_map, is_some, length, map, option_map, slice_get, Some};
ghost use Rattle.std.specs.BTreeMap.{get, insert_entry};
ghost use Rattle.std.specs.Cmp.{IsTotalOrder};
ghost use Rattle.std.specs.Option.{option_and_then, option_copied, option_map_or};
ghost use Rattle.std.specs.Ordering.{is_lt};
ghost use Rattle.attributes.specs.Event.{EventValue, kind_of};
ghost use Rattle.inbox.specs.Kept.{events};
ghost use Rattle.inbox.specs.Shown.{is_shown, shown};
ghost use Rattle.views.specs.Latest.{greater, number_cmp};
ghost use Rattle.views.specs.Tally.{HasTime, day_cmp, days, kind_and_day, tally};
ghost use Rattle.views.specs.steps.Rows.{latest_rows};

use crate::day::Day;
use attributes::Sequenced;
use inbox::Inbox;
use std::alloc::{AllocError, Global};
use std::collections::BTreeMap;

/// Counts an answer's key once more. Time logarithmic in the keys; one search if it is there.
pub(crate) fn count<K: Ord + Drop>(table: &mut BTreeMap<K, u64>, key: K) -> Result<(), AllocError>
    requires ordered { IsTotalOrder K.cmp }
    requires fits { option_map_or (λ n. n) (get K.cmp table.old key) 0 + 1 < 2 ^ 64 }
    ensures { OnOk result (table.new.entries ≡ insert_entry K.cmp table.old.entries key
        (option_map_or (λ n. n) (get K.cmp table.old key) 0 + 1)) }
{
    if let Some(count) = table.get_mut(&key) {
        *count = *count + 1;
        return Ok(());
    }
    table.insert(key, 1)?;
    Ok(())
}

/// The type, for `kinds`, of the set's event at a place of key order, where there is one.
pub(crate) fn kind_at(inbox: &Inbox, i: u64) -> Option<&str>
    ensures { option_copied result ≡ option_map kind_of (slice_get (events inbox.now) i) }
{
    if i < inbox.len() {
        Some(inbox.at(i).event().kind())
    } else {
        None
    }
}

/// For `days`: type and day of the event at a place of key order, where there is one with a time.
fn kind_and_day_at(inbox: &Inbox, i: u64) -> Option<(&str, Day)>
    ensures { option_map (λ k. (k.0.now, k.1)) result
        ≡ option_and_then kind_and_day (slice_get (events inbox.now) i) }
{
    if i >= inbox.len() {
        return None;
    }
    let event = inbox.at(i).event();
    match Day::of_event(event) {
        Some(day) => Some((event.kind(), day)),
        None => None,
    }
}

/// Whether the event at a place of key order is shown and has a time, so that `days` counts it.
fn is_timed(inbox: &Inbox, i: u64) -> bool
    requires { i < length (events inbox.now) }
    ensures { (e : EventValue) → slice_get (events inbox.now) i ≡ Some e
        → result ≡ (is_some (kind_and_day e) && is_shown (events inbox.now) e) }
{
    kind_and_day_at(inbox, i).is_some() && inbox.is_shown(i)
}

/// Whether a shown event has a time, so that `days` counts any. Goes over the events up to the
/// first such one, and takes no memory.
pub(crate) fn has_time(inbox: &Inbox) -> bool
    ensures some { IsTrue result → HasTime (events inbox.now) }
    ensures none { result ≡ false → days (events inbox.now) ≡ [] }
{
    for i in 0..inbox.len() {
        if is_timed(inbox, i) {
            return true;
        }
    }
    false
}

/// The table of `days`: how many shown events with a time have each type and day, in one pass.
pub(crate) fn by_day<'a>(
    alloc: Global,
    inbox: &'a Inbox,
) -> Result<BTreeMap<(&'a str, Day), u64>, AllocError>
    ensures { IfOk result (λ table. map (λ e. ((e.0.0.now, e.0.1), e.1)) table.entries
        ≡ tally day_cmp (filter_map kind_and_day (shown (events inbox.now)))) }
{
    let mut table = BTreeMap::new(alloc);
    let mut ahead = kind_and_day_at(inbox, 0);
    for i in 0..inbox.len() {
        // As for types.
        let found = ahead;
        ahead = kind_and_day_at(inbox, i + 1);
        if let Some(key) = found {
            if inbox.is_shown(i) {
                count(&mut table, key)?;
            }
        }
    }
    Ok(table)
}

/// Whether the event comes before the other by number, then id, as `latest` compares them.
fn is_earlier(event: &Sequenced, other: &Sequenced) -> bool
    ensures { result ≡ is_lt (number_cmp event.now other.now) }
{
    let numbers = event.number().number().cmp(&other.number().number());
    numbers
        .then(event.event().id().cmp(other.event().id()))
        .is_lt()
}

/// The later of two events for the question `latest`, the one at hand where they tie.
fn later<'a>(before: Option<&'a Sequenced>, event: &'a Sequenced) -> &'a Sequenced
    ensures { result.now ≡ greater number_cmp (option_copied before.entry) event.now }
{
    match before {
        None => event,
        Some(before) => {
            if is_earlier(before, event) {
                event
            } else {
                before
            }
        }
    }
}

/// The table of the question `latest`: the latest event of each source and subject.
pub(crate) fn by_entity<'a>(
    alloc: Global,
    list: &[&'a Sequenced],
) -> Result<BTreeMap<(&'a str, &'a str), &'a Sequenced>, AllocError>
    ensures { IfOk result (λ table.
        map (λ e. ((e.0.0.now, e.0.1.now), Some e.1.now)) table.entries
        ≡ latest_rows (map (λ e. e.now) list.now)) }
{
    let mut table: BTreeMap<(&'a str, &'a str), &'a Sequenced> = BTreeMap::new(alloc);
    for event in list {
        let event: &'a Sequenced = *event;
        match event.event().subject() {
            Some(subject) => {
                let entity = (event.event().source(), subject);
                let latest = later(table.get(&entity).copied(), event);
                table.insert(entity, latest)?;
            }
            None => {}
        }
    }
    Ok(table)
}
