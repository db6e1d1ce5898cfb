//! The rows of the shown events of each source and subject, by number and id.

ghost use Rattle.std.specs.Prelude.{◌≡◌, IfOk, None, OnErr, OnOk, Some};
ghost use Rattle.std.specs.Option.{option_map};
ghost use Rattle.indexmap.specs.IndexMap.{hasher_of};
ghost use Rattle.kept_views.specs.Tables.{slot_of};
ghost use Rattle.kept_views.specs.steps.Moves.{SetsSlot};
ghost use Rattle.kept_views.specs.steps.Seen.{slot_in, entities_in};

use crate::seed::Seed;
use attributes::Sequenced;
use indexmap::IndexMap;
use std::alloc::{AllocError, Global};
use std::collections::BTreeMap;

/// A number and an id.
pub(crate) type Rank = (u64, String);

/// The places among what came of the events of an entity.
pub(crate) type Rows = BTreeMap<Rank, u64>;

/// The rows of each source and subject.
pub(crate) type Entities = IndexMap<(String, String), Rows, Seed>;

/// Where the row of an event stands.
#[derive(Drop)]
pub(crate) struct Slot {
    pub(crate) entity: (String, String),
    pub(crate) rank: Rank,
}

/// The slot where an event's row stands in the kept entities, if it has a subject.
pub(crate) fn slot_of(alloc: Global, event: &Sequenced) -> Result<Option<Slot>, AllocError>
    ensures { IfOk result (λ slot. option_map slot_in slot ≡ slot_of event.now) }
{
    let number = event.number().number();
    let event = event.event();
    let Some(subject) = event.subject() else {
        return Ok(None);
    };
    let source = String::from_str(alloc, event.source())?;
    let subject = String::from_str(alloc, subject)?;
    let id = String::from_str(alloc, event.id())?;
    Ok(Some(Slot {
        entity: (source, subject),
        rank: (number, id),
    }))
}

/// Puts a row into the kept rows of an entity.
fn put_row(alloc: Global, entities: &mut Entities, slot: Slot, place: u64) -> Result<(), AllocError>
    ensures ok { OnOk result (SetsSlot (Some (slot_in slot)) (Some place)
        (entities_in entities.old.entries) (entities_in entities.new.entries)) }
    ensures err { OnErr result
        (entities_in entities.new.entries ≡ entities_in entities.old.entries) }
    ensures hasher { hasher_of entities.new ≡ hasher_of entities.old }
{
    if let Some(rows) = entities.get_mut(&slot.entity) {
        rows.insert(slot.rank, place)?;
        return Ok(());
    }
    let mut rows = BTreeMap::new(alloc);
    rows.insert(slot.rank, place)?;
    entities.insert(slot.entity, rows)?;
    Ok(())
}

/// Puts a row with its place into the kept entities, if there is a slot. Memory is wanted for that
/// alone; where it is refused nothing has changed. Time logarithmic in the rows of the entity.
pub(crate) fn bring(
    alloc: Global,
    entities: &mut Entities,
    slot: Option<Slot>,
    place: u64,
) -> Result<(), AllocError>
    ensures ok { OnOk result (SetsSlot (option_map slot_in slot) (Some place)
        (entities_in entities.old.entries) (entities_in entities.new.entries)) }
    ensures err { OnErr result
        (entities_in entities.new.entries ≡ entities_in entities.old.entries) }
    ensures hasher { hasher_of entities.new ≡ hasher_of entities.old }
{
    match slot {
        Some(slot) => put_row(alloc, entities, slot, place),
        None => Ok(()),
    }
}

/// Takes a row out of the kept entities; an entity without rows goes too.
fn take_row_out(entities: &mut Entities, slot: &Slot)
    ensures rows { SetsSlot (Some (slot_in slot.now)) None
        (entities_in entities.old.entries) (entities_in entities.new.entries) }
    ensures hasher { hasher_of entities.new ≡ hasher_of entities.old }
{
    let Some(rows) = entities.get_mut(&slot.entity) else {
        return;
    };
    rows.remove(&slot.rank);
    if rows.is_empty() {
        entities.swap_remove(&slot.entity);
    }
}

/// Empties a slot of the kept entities, where there is one. It takes no memory. Time logarithmic in
/// the rows of the entity.
pub(crate) fn clear(entities: &mut Entities, slot: Option<Slot>)
    ensures rows { SetsSlot (option_map slot_in slot) None
        (entities_in entities.old.entries) (entities_in entities.new.entries) }
    ensures hasher { hasher_of entities.new ≡ hasher_of entities.old }
{
    match slot {
        Some(slot) => take_row_out(entities, &slot),
        None => {}
    }
}
