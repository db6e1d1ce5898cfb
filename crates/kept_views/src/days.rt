//! Counts of types by day.

ghost use Rattle.std.specs.Prelude.{◌≡◌, ◌≢◌, ◌+◌, ◌<◌, ◌^◌, [], IfOk, List, OnErr, OnOk, filter_map, map};
ghost use Rattle.std.specs.BTreeMap.{insert_entry};
ghost use Rattle.std.specs.Option.{option_map};
ghost use Rattle.attributes.specs.Event.{EventValue};
ghost use Rattle.indexmap.specs.IndexMap.{hasher_of, spare};
ghost use Rattle.views.specs.Tally.{day_cmp, kind_and_day, tally};
ghost use Rattle.kept_views.specs.Tables.{CountsDays, KindDay, is_kind_day};
ghost use Rattle.kept_views.specs.steps.Moves.{CountsChange, day_count_in, is_own, one_less, one_more};
ghost use Rattle.kept_views.specs.steps.Seen.{day_in, days_in};

use crate::seed::Seed;
use attributes::{Sequenced, Text};
use indexmap::IndexMap;
use std::alloc::{AllocError, Global};
use std::collections::BTreeMap;
use views::{Day, Days};

/// A type and a day.
pub(crate) type DayKey = (String, Day);

/// Counts of types by day. A type and day that isn't there has the count 0.
pub(crate) type DayTally = IndexMap<DayKey, u64, Seed>;

/// The type and the day by which kept views count an event, if it has a time.
pub(crate) fn day_of(alloc: Global, event: &Sequenced) -> Result<Option<DayKey>, AllocError>
    ensures { IfOk result (λ day. option_map day_in day ≡ kind_and_day event.now) }
{
    let event = event.event();
    let Some(day) = Day::of_event(event) else {
        return Ok(None);
    };
    let kind = String::from_str(alloc, event.kind())?;
    Ok(Some((kind, day)))
}

/// Counts a type and day once more in kept views, where there is one, for which there must be room.
/// It takes no memory.
pub(crate) fn raise_day(tally: &mut DayTally, day: Option<DayKey>)
    requires room { 0 < spare tally.old }
    requires fits { (k : KindDay) → day_count_in (days_in tally.old.entries) k + 1 < 2 ^ 64 }
    ensures counts { CountsChange is_kind_day (is_own (option_map day_in day)) one_more
        (days_in tally.old.entries) (days_in tally.new.entries) }
    ensures hasher { hasher_of tally.new ≡ hasher_of tally.old }
{
    let Some(day) = day else {
        return;
    };
    let before = tally.get(&day).copied().unwrap_or(0);
    let _ = tally.insert(day, before + 1);
}

/// Counts a type and day once less in kept views, where there is one; a count that falls to 0 is
/// taken out. It takes no memory.
pub(crate) fn lower_day(tally: &mut DayTally, day: Option<DayKey>)
    ensures counts { CountsChange is_kind_day (is_own (option_map day_in day)) one_less
        (days_in tally.old.entries) (days_in tally.new.entries) }
    ensures hasher { hasher_of tally.new ≡ hasher_of tally.old }
{
    let Some(day) = day else {
        return;
    };
    let before = tally.get(&day).copied().unwrap_or(0);
    if before <= 1 {
        tally.swap_remove(&day);
        return;
    }
    if let Some(count) = tally.get_mut(&day) {
        *count = before - 1;
    }
}

/// Puts a count from the kept views in at a key of an ordered table.
fn put_count<K: Ord + Drop>(
    table: &mut BTreeMap<K, u64>,
    key: K,
    count: u64,
) -> Result<(), AllocError>
    ensures { OnOk result
        (table.new.entries ≡ insert_entry K.cmp table.old.entries key count) }
{
    table.insert(key, count)?;
    Ok(())
}

/// The kept counts by type, then day, lent. Time in proportion to them, times the logarithm of
/// their number.
fn ordered_days(alloc: Global, days: &DayTally) -> Result<BTreeMap<(&str, Day), u64>, AllocError>
    ensures { IfOk result (λ table. (shown : List EventValue)
        → CountsDays shown (days_in days.now.entries)
        → map (λ e. ((e.0.0.now, e.0.1), e.1)) table.entries
        ≡ tally day_cmp (filter_map kind_and_day shown)) }
{
    let mut table = BTreeMap::new(alloc);
    for (day, count) in days.iter() {
        put_count(&mut table, (day.0.as_str(), day.1), *count)?;
    }
    Ok(table)
}

/// The rows of the kept table of types by day, copied for an answer.
fn listed_days(alloc: Global, table: &BTreeMap<(&str, Day), u64>) -> Result<Days, AllocError>
    ensures { IfOk result (λ rows. rows ≡ map (λ e. ((e.0.0.now, e.0.1), e.1)) table.now.entries) }
{
    let mut rows = Days::empty(alloc);
    for (day, count) in table {
        rows.push(((Text::of(alloc, day.0)?, day.1), *count))?;
    }
    Ok(rows)
}

/// The answer to `days` from the kept counts, by type, then day.
pub(crate) fn list_days(alloc: Global, days: &DayTally) -> Result<Days, AllocError>
    ensures rows { IfOk result (λ rows. (shown : List EventValue)
        → CountsDays shown (days_in days.now.entries)
        → rows ≡ tally day_cmp (filter_map kind_and_day shown)) }
    ensures err { OnErr result (days.now.entries ≢ []) }
{
    if days.is_empty() {
        return Ok(Days::empty(alloc));
    }
    let table = ordered_days(alloc, days)?;
    Ok(listed_days(alloc, &table)?)
}
