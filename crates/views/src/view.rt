//! What the shown events are asked: types, days and the latest.

ghost use Rattle.std.specs.Prelude.{◌≡◌, ◌≤◌, ◌+◌, IfOk, OnErr, drop, length, map, take};
ghost use Rattle.inbox.specs.Kept.{events};
ghost use Rattle.inbox.specs.Shown.{shown};
ghost use Rattle.views.specs.Latest.{latest};
ghost use Rattle.views.specs.Tally.{HasTime, days, kinds};

use crate::day::Day;
use crate::row::{Days, Kinds};
use crate::table::{by_day, by_entity, count, has_time, kind_at};
use attributes::{Batch, Sequenced, Text};
use inbox::Inbox;
use std::alloc::{AllocError, Global};
use std::collections::BTreeMap;

/// The shown events of a set, in key order, lent to an answer.
pub(crate) fn shown_events<'a>(
    alloc: Global,
    inbox: &'a Inbox,
) -> Result<Vec<&'a Sequenced>, AllocError>
    ensures { IfOk result (λ list. map (λ e. e.now) list.items ≡ shown (events inbox.now)) }
{
    let mut list = Vec::new(alloc);
    for i in 0..inbox.len() {
        if inbox.is_shown(i) {
            list.push(inbox.at(i))?;
        }
    }
    Ok(list)
}

/// The rows of `kinds`: how many shown events have each type, in byte order. Time in proportion to
/// the events, times the logarithm of their number; a type is copied once.
pub(crate) fn count_kinds(alloc: Global, inbox: &Inbox) -> Result<Kinds, AllocError>
    ensures { IfOk result (λ rows. rows ≡ kinds (events inbox.now)) }
{
    let mut table = BTreeMap::new(alloc);
    let mut ahead = kind_at(inbox, 0);
    for i in 0..inbox.len() {
        // The next event is found before this one's text is read: memory is asked for both at once.
        let found = ahead;
        ahead = kind_at(inbox, i + 1);
        if let Some(kind) = found {
            if inbox.is_shown(i) {
                count(&mut table, kind)?;
            }
        }
    }
    Ok(listed_kinds(alloc, &table)?)
}

/// The rows of the answer to `kinds` that a table of types has.
fn listed_kinds(alloc: Global, table: &BTreeMap<&str, u64>) -> Result<Kinds, AllocError>
    ensures { IfOk result (λ rows. rows ≡ map (λ e. (e.0.now, e.1)) table.now.entries) }
{
    let mut rows = Kinds::empty(alloc);
    for (kind, count) in table {
        rows.push((Text::of(alloc, kind)?, *count))?;
    }
    Ok(rows)
}

/// The rows of `days`: how many shown events with a time have each type and UTC day, by type, then
/// day. Time as for `count_kinds`.
pub(crate) fn count_days(alloc: Global, inbox: &Inbox) -> Result<Days, AllocError>
    ensures rows { IfOk result (λ rows. rows ≡ days (events inbox.now)) }
    ensures err { OnErr result (HasTime (events inbox.now)) }
{
    if !has_time(inbox) {
        return Ok(Days::empty(alloc));
    }
    let table = by_day(alloc, inbox)?;
    Ok(listed_days(alloc, &table)?)
}

/// The rows of the answer to `days` that a table of types and days has.
fn listed_days(alloc: Global, table: &BTreeMap<(&str, Day), u64>) -> Result<Days, AllocError>
    ensures { IfOk result (λ rows. rows ≡ map (λ e. ((e.0.0.now, e.0.1), e.1)) table.now.entries) }
{
    let mut rows = Days::empty(alloc);
    for (key, count) in table {
        rows.push(((Text::of(alloc, key.0)?, key.1), *count))?;
    }
    Ok(rows)
}

/// The events of a batch, lent to the lines of an answer.
pub(crate) fn lent(alloc: Global, batch: &Batch) -> Result<Vec<&Sequenced>, AllocError>
    ensures { IfOk result (λ list. map (λ e. e.now) list.items ≡ batch.now) }
{
    let mut list = Vec::new(alloc);
    for i in 0..batch.len() {
        list.push(batch.at(i))?;
    }
    Ok(list)
}

/// The n events of a batch from place i on, lent to the lines of an answer.
pub(crate) fn lent_from<'a>(
    alloc: Global,
    inbox: &'a Inbox,
    i: u64,
    n: u64,
) -> Result<Vec<&'a Sequenced>, AllocError>
    requires fits { i + n ≤ length (events inbox.now) }
    ensures { IfOk result (λ list.
        map (λ e. e.now) list.items ≡ take n (drop i (events inbox.now))) }
{
    let mut list = Vec::new(alloc);
    // The count bounds the sum below.
    let _len = inbox.len();
    for k in 0..n {
        list.push(inbox.at(i + k))?;
    }
    Ok(list)
}

/// What answers `latest`: the latest shown event of each source and subject, by source, then
/// subject, lent. Time as for `count_kinds`.
pub(crate) fn latest_events<'a>(
    alloc: Global,
    inbox: &'a Inbox,
) -> Result<Vec<&'a Sequenced>, AllocError>
    ensures { IfOk result (λ list. map (λ e. e.now) list.items ≡ latest (events inbox.now)) }
{
    let shown = shown_events(alloc, inbox)?;
    let table = by_entity(alloc, &shown)?;
    Ok(latest_in_order(alloc, &table)?)
}

/// The latest events that the question's table by source and subject has, in its order.
fn latest_in_order<'a>(
    alloc: Global,
    table: &BTreeMap<(&'a str, &'a str), &'a Sequenced>,
) -> Result<Vec<&'a Sequenced>, AllocError>
    ensures { IfOk result (λ list.
        map (λ e. e.now) list.items ≡ map (λ e. e.1.now) table.now.entries) }
{
    let mut list = Vec::new(alloc);
    for entry in table {
        list.push(*entry.1)?;
    }
    Ok(list)
}

/// The answer to `latest`: copies of the latest shown events. Time as for `latest_events`, and in
/// proportion to the events that are copied.
pub(crate) fn find_latest(alloc: Global, inbox: &Inbox) -> Result<Batch, AllocError>
    ensures { IfOk result (λ batch. batch ≡ latest (events inbox.now)) }
{
    let latest = latest_events(alloc, inbox)?;
    copied(alloc, &latest)
}

/// Copies of lent events, for an answer of its own.
fn copied(alloc: Global, list: &[&Sequenced]) -> Result<Batch, AllocError>
    ensures { IfOk result (λ batch. batch ≡ map (λ e. e.now) list.now) }
{
    let mut batch = Batch::empty(alloc);
    for event in list {
        batch.push(event.copy()?)?;
    }
    Ok(batch)
}
