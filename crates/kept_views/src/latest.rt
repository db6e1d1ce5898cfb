//! The latest events, by their rows.

ghost use Rattle.std.specs.Prelude.{◌≡◌, [], IfOk, OnOk, Some, filter_map, map};
ghost use Rattle.std.specs.List.{IsDistinct, cons_option};
ghost use Rattle.std.specs.Option.{option_and_then, option_copied};
ghost use Rattle.views.specs.Latest.{entity_cmp};
ghost use Rattle.kept_views.specs.Tables.{is_entity};
ghost use Rattle.kept_views.specs.steps.Latest.{latest_row, entity_row, top_event};
ghost use Rattle.kept_views.specs.steps.Rows.{put_all};
ghost use Rattle.kept_views.specs.steps.Seen.{rows_in, entities_in};

use crate::entities::{Entities, Rows};
use attributes::{Batch, Sequenced};
use inbox::Inbox;
use std::alloc::{AllocError, Global};
use std::collections::BTreeMap;

/// Events by source and subject, lent.
type Latest<'a> = BTreeMap<(&'a str, &'a str), &'a Sequenced>;

/// The event that came at the place of the greatest number and id in an entity's kept rows.
fn last_event<'a>(inbox: &'a Inbox, rows: &Rows) -> Option<&'a Sequenced>
    ensures { option_copied result ≡ top_event inbox.now.arrivals (rows_in rows.now) }
{
    // That the rows rise is known of their number.
    let _len = rows.len();
    let (_, place) = rows.last_key_value()?;
    if *place < inbox.arrived() {
        Some(inbox.arrived_at(*place))
    } else {
        None
    }
}

/// Puts an event in at its source and subject, in an answer from the kept rows.
fn add<'a>(latest: &mut Latest<'a>, event: &'a Sequenced) -> Result<(), AllocError>
    ensures { OnOk result (map (λ e. ((e.0.0.now, e.0.1.now), Some e.1.now)) latest.new.entries
        ≡ put_all entity_cmp
        (map (λ e. ((e.0.0.now, e.0.1.now), Some e.1.now)) latest.old.entries)
        (cons_option (entity_row event.now) [])) }
{
    if let Some(subject) = event.event().subject() {
        latest.insert((event.event().source(), subject), event)?;
    }
    Ok(())
}

/// Puts the latest event of an entity with kept rows in, if it has one.
fn add_last<'a>(latest: &mut Latest<'a>, inbox: &'a Inbox, rows: &Rows) -> Result<(), AllocError>
    ensures { OnOk result (map (λ e. ((e.0.0.now, e.0.1.now), Some e.1.now)) latest.new.entries
        ≡ put_all entity_cmp
        (map (λ e. ((e.0.0.now, e.0.1.now), Some e.1.now)) latest.old.entries)
        (cons_option (option_and_then entity_row
        (top_event inbox.now.arrivals (rows_in rows.now))) [])) }
{
    match last_event(inbox, rows) {
        Some(event) => add(latest, event),
        None => Ok(()),
    }
}

/// The latest event of each source and subject by the kept rows, by source, then subject, lent.
/// Time in proportion to them, times the logarithm of their number.
pub(crate) fn ordered_latest<'a>(
    alloc: Global,
    inbox: &'a Inbox,
    entities: &Entities,
) -> Result<Latest<'a>, AllocError>
    ensures rows { IfOk result (λ latest.
        map (λ e. ((e.0.0.now, e.0.1.now), Some e.1.now)) latest.entries
        ≡ put_all entity_cmp []
        (filter_map (latest_row inbox.now.arrivals) (entities_in entities.now.entries))) }
    ensures distinct { OnOk result
        (IsDistinct is_entity (map (λ t. t.0) (entities_in entities.now.entries))) }
{
    let mut latest = BTreeMap::new(alloc);
    for (_, rows) in entities.iter() {
        add_last(&mut latest, inbox, rows)?;
    }
    Ok(latest)
}

/// Copies of the events of a table made from the kept rows.
pub(crate) fn copied(alloc: Global, latest: &Latest<'_>) -> Result<Batch, AllocError>
    ensures { IfOk result (λ batch. batch ≡ map (λ e. e.1.now) latest.now.entries) }
{
    let mut batch = Batch::empty(alloc);
    for entry in latest {
        batch.push(entry.1.copy()?)?;
    }
    Ok(batch)
}
