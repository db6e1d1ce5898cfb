//! The rows of the table, read one at a time as events.

ghost use Rattle.std.specs.Prelude.{◌≡◌, ◌≢◌, ◌⊎◌, ◌++◌, List, [], ◌∷◌, Some, None, filter, IsTrue, IfOk, IfErr, IfSome, IfNone, OnOk};
ghost use Rattle.sqlite_value.specs.Order.{Row};
ghost use Rattle.sqlite.specs.Held.{state};
ghost use Rattle.sqlite.specs.Given.{Advances};
ghost use Rattle.sqlite.specs.State.{HasCleanDisk, IsRolledBack, IsUnchanged, Survives};
ghost use Rattle.attributes.specs.Event.{EventValue};
ghost use Rattle.inbox_table.specs.Rows.{IsListed, IsNumbered, shown_of};
ghost use Rattle.inbox_table.specs.Texts.{select_text};
ghost use Rattle.inbox_table.specs.steps.Reads.{HasVersion, IsAtStart, IsTableReading, TellsRows};
ghost use Rattle.inbox_table.specs.declared.fault.TableFault.TheVariants.{Foreign, OutOfMemory};
ghost use Rattle.database_layout.specs.States.{ShowsCommitIfDone};

use crate::fault::TableFault;
use crate::row::event_of;
use crate::version::Version;
use crate::wanted::Wanted;
use attributes::laws::text_tells_events;
use attributes::{Batch, Sequenced};
use sqlite::{Alter, Connection, Rows};
use std::alloc::Global;

/// How many rows there are, and those of their events that were wanted.
#[derive(Drop)]
pub(crate) struct Found {
    pub(crate) rows: u64,
    pub(crate) events: Batch,
}

/// The event of the next row of the inbox's table, where it is that of one at this place, else
/// `Foreign`; none behind the last row.
fn next_event<S: Alter>(
    alloc: Global,
    rows: &mut Rows<'_, S>,
    version: Version,
    place: u64,
) -> Result<Option<Sequenced>, TableFault>
    ensures same_reference { rows.new.conn.ghost_name ≡ rows.old.conn.ghost_name }
    ensures event { HasCleanDisk (state S.Store rows.new.conn.now) → IfOk result (λ o.
        IfSome o (λ e. IsNumbered e
        × Advances S.Store rows.old.conn.now rows.new.conn.now (Some (shown_of version place e)))) }
    ensures end { HasCleanDisk (state S.Store rows.new.conn.now) → IfOk result (λ o.
        IfNone o (Advances S.Store rows.old.conn.now rows.new.conn.now None)) }
    ensures foreign { HasCleanDisk (state S.Store rows.new.conn.now) → IfErr result (λ f.
        f ≡ Foreign → (row : Row) × Advances S.Store rows.old.conn.now rows.new.conn.now (Some row)
        × ((e : EventValue) → IsNumbered e → row ≢ shown_of version place e)) }
    ensures unchanged { HasCleanDisk (state S.Store rows.new.conn.now)
        → OnOk result (IsUnchanged
        (state S.Store rows.old.conn.now) (state S.Store rows.new.conn.now)) }
    ensures refused { HasCleanDisk (state S.Store rows.new.conn.now) → IfErr result (λ f.
        f ≡ Foreign → IsUnchanged
        (state S.Store rows.old.conn.now) (state S.Store rows.new.conn.now)) }
    ensures kept { HasCleanDisk (state S.Store rows.new.conn.now)
        → IsUnchanged (state S.Store rows.old.conn.now) (state S.Store rows.new.conn.now)
        ⊎ IsRolledBack (state S.Store rows.old.conn.now) (state S.Store rows.new.conn.now) }
    ensures survives { Survives (state S.Store rows.old.conn.now)
        (state S.Store rows.new.conn.now) (λ _. ⊥) }
{
    rows.advance()?;
    let Some(row) = rows.get() else {
        return Ok(None);
    };
    match event_of(alloc, row, version, place) {
        Ok(event) => Ok(Some(event)),
        Err(fault) => Err(fault),
    }
}

/// Puts an event read from the inbox's table behind the others, where it is wanted.
fn keep_if<W: Wanted>(events: &mut Batch, event: Sequenced, wanted: &W) -> Result<(), TableFault>
    ensures kept { OnOk result (events.new
        ≡ events.old ++ filter (W.wanted wanted.now) (event ∷ [])) }
    ensures fault { IfErr result (λ f. f ≡ OutOfMemory) }
{
    if wanted.is_wanted(&event) {
        events.push(event)?;
    }
    Ok(())
}

/// Reads the inbox's rows to the end, each once, and lets each go before the next is read, and its
/// event too if unwanted. `Foreign` at the first row that isn't that of an event at its place.
fn read_rows<S: Alter, W: Wanted>(
    alloc: Global,
    rows: &mut Rows<'_, S>,
    version: Version,
    wanted: &W,
) -> Result<Found, TableFault>
    requires { HasCleanDisk (state S.Store rows.old.conn.now)
        → IsAtStart version S.Store rows.old.conn.now }
    ensures same_reference { rows.new.conn.ghost_name ≡ rows.old.conn.ghost_name }
    ensures tells { HasCleanDisk (state S.Store rows.new.conn.now) → IfOk result (λ f. TellsRows version
        (W.wanted wanted.now) (state S.Store rows.old.conn.now).now f.rows f.events) }
    ensures foreign { HasCleanDisk (state S.Store rows.new.conn.now) → IfErr result (λ f.
        f ≡ Foreign → (l : List EventValue)
        → IsListed version (state S.Store rows.old.conn.now).now l → ⊥) }
    ensures unchanged { HasCleanDisk (state S.Store rows.new.conn.now)
        → OnOk result (IsUnchanged
        (state S.Store rows.old.conn.now) (state S.Store rows.new.conn.now)) }
    ensures kept { HasCleanDisk (state S.Store rows.new.conn.now)
        → IsUnchanged (state S.Store rows.old.conn.now) (state S.Store rows.new.conn.now)
        ⊎ IsRolledBack (state S.Store rows.old.conn.now) (state S.Store rows.new.conn.now) }
    ensures survives { Survives (state S.Store rows.old.conn.now)
        (state S.Store rows.new.conn.now) (λ _. ⊥) }
{
    text_tells_events();
    let mut events = Batch::empty(alloc);
    for place in 1..u64::MAX {
        let next = match next_event(alloc, rows, version, place) {
            Ok(next) => next,
            Err(fault) => return Err(fault),
        };
        let Some(event) = next else {
            return Ok(Found {
                rows: place - 1,
                events,
            });
        };
        keep_if(&mut events, event, wanted)?;
    }
    Err(TableFault::Store)
}

/// The question for all rows of the inbox's table, by place.
fn select_of(version: Version) -> &'static str
    ensures { result.now ≡ select_text version }
{
    match version {
        Version::One => "SELECT place, source, id, number, body FROM inbox ORDER BY place",
        Version::Two => {
            "SELECT place, source, id, number, body, block FROM inbox2 ORDER BY place"
        }
    }
}

/// How many rows the inbox's table has, and the wanted of their events in the order of their
/// places. Each row is read once. `Foreign` if a row isn't that of an event at its place.
pub(crate) fn read<S: Alter, W: Wanted>(
    alloc: Global,
    conn: &mut Connection<S>,
    version: Version,
    wanted: &W,
) -> Result<Found, TableFault>
    requires { HasVersion version (state S.Store conn.old).now.schema }
    ensures tells { HasCleanDisk (state S.Store conn.new) → IfOk result (λ f. TellsRows version
        (W.wanted wanted.now) (state S.Store conn.old).now f.rows f.events) }
    ensures foreign { HasCleanDisk (state S.Store conn.new) → IfErr result (λ f. f ≡ Foreign
        → (l : List EventValue) → IsListed version (state S.Store conn.old).now l → ⊥) }
    ensures same { IsTableReading (state S.Store conn.old) (state S.Store conn.new) }
    ensures open { HasCleanDisk (state S.Store conn.new)
        → OnOk result (IsTrue (state S.Store conn.new).is_open) }
    ensures settled { ShowsCommitIfDone (state S.Store conn.new) result }
    ensures survives { Survives (state S.Store conn.old) (state S.Store conn.new) (λ _. ⊥) }
{
    let _schema = conn.schema();
    if !conn.is_autocommit() {
        return Err(TableFault::Store);
    }
    let mut rows = conn.query(select_of(version), &[])?;
    read_rows(alloc, &mut rows, version, wanted)
}
