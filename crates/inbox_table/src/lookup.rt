//! Events of the table that are looked up by its key or its index, without a pass over all rows.

ghost use Rattle.std.specs.Prelude.{◌≡◌, ◌<◌, ◌^◌, List, [], ◌∷◌, IsTrue, IfOk, IfErr, OnOk};
ghost use Rattle.sqlite_value.specs.declared.value.Value.TheVariants.{Int};
ghost use Rattle.sqlite.specs.Given.{IsPlain};
ghost use Rattle.sqlite.specs.Held.{state};
ghost use Rattle.sqlite.specs.Listing.{understood};
ghost use Rattle.sqlite.specs.State.{HasCleanDisk, Shown, Survives};
ghost use Rattle.sqlite.specs.Values.{bound};
ghost use Rattle.attributes.specs.Event.{EventValue};
ghost use Rattle.inbox_table.specs.Fault.{IsOfStore};
ghost use Rattle.inbox_table.specs.Rows.{IsInbox, events_after, events_named};
ghost use Rattle.inbox_table.specs.Texts.{page_text};
ghost use Rattle.inbox_table.specs.steps.Reads.{AreShown, HasVersion, IsTableReading};
ghost use Rattle.inbox_table.specs.declared.fault.TableFault.TheVariants.{Foreign};
ghost use Rattle.inbox_table.specs.declared.version.Version.TheVariants.{Two};
ghost use Rattle.database_layout.specs.States.{ShowsCommitIfDone};

use crate::fault::TableFault;
use crate::row::placed_event;
use crate::statement::signed;
use attributes::Batch;
use database_layout::Layout;
use sqlite::{Alter, Connection, Row, params};
use sqlite_schema::schema::Schema;
use sqlite_value::value::ValueRef;
use std::alloc::Global;

/// Whether the inbox's table of version 2 is there, beside nothing but tables of ours.
fn is_there(schema: &Schema) -> bool
    ensures { IsTrue result → HasVersion Two schema.now }
{
    match Layout::of(schema) {
        Some(layout) => layout.has_inbox2(),
        None => false,
    }
}

/// The rows that a question about the inbox's table shows, which writes nothing.
fn ask<S: Alter>(
    conn: &mut Connection<S>,
    text: &str,
    params: &[ValueRef<'_>],
) -> Result<Vec<Row>, TableFault>
    requires { IsPlain (understood (state S.Store conn.old).now.schema text.now) }
    ensures shown { HasCleanDisk (state S.Store conn.new) → IfOk result (λ rows. Shown text.now
        (bound params.now) (state S.Store conn.old) (state S.Store conn.new) rows.items) }
    ensures fault { IfErr result IsOfStore }
    ensures same { IsTableReading (state S.Store conn.old) (state S.Store conn.new) }
    ensures open { HasCleanDisk (state S.Store conn.new)
        → OnOk result (IsTrue (state S.Store conn.new).is_open) }
    ensures settled { ShowsCommitIfDone (state S.Store conn.new) result }
    ensures survives { Survives (state S.Store conn.old) (state S.Store conn.new) (λ _. ⊥) }
{
    if !conn.is_autocommit() {
        return Err(TableFault::Store);
    }
    Ok(conn.query_all(text, params)?)
}

/// The rows of the inbox's table with this source and id, by place.
fn rows_named<S: Alter>(
    conn: &mut Connection<S>,
    source: &str,
    id: &str,
) -> Result<Vec<Row>, TableFault>
    requires { HasVersion Two (state S.Store conn.old).now.schema }
    ensures rows { HasCleanDisk (state S.Store conn.new) → IfOk result (λ rows.
        (l : List EventValue) → IsInbox (state S.Store conn.old).now l
        → AreShown rows.items (events_named source.now id.now l)) }
    ensures fault { IfErr result IsOfStore }
    ensures same { IsTableReading (state S.Store conn.old) (state S.Store conn.new) }
    ensures open { HasCleanDisk (state S.Store conn.new)
        → OnOk result (IsTrue (state S.Store conn.new).is_open) }
    ensures settled { ShowsCommitIfDone (state S.Store conn.new) result }
    ensures survives { Survives (state S.Store conn.old) (state S.Store conn.new) (λ _. ⊥) }
{
    ask(
        conn,
        "SELECT place, source, id, number, body, block FROM inbox2 WHERE source = ?1 AND id = ?2 ORDER BY place",
        params![source, id],
    )
}

/// The rows of the inbox's table at so many places behind one, or those that are there, by place.
fn rows_after<S: Alter>(
    conn: &mut Connection<S>,
    place: i64,
    count: i64,
) -> Result<Vec<Row>, TableFault>
    requires { HasVersion Two (state S.Store conn.old).now.schema }
    ensures shown { HasCleanDisk (state S.Store conn.new) → IfOk result (λ rows. Shown page_text
        (Int place ∷ Int count ∷ [])
        (state S.Store conn.old) (state S.Store conn.new) rows.items) }
    ensures fault { IfErr result IsOfStore }
    ensures same { IsTableReading (state S.Store conn.old) (state S.Store conn.new) }
    ensures open { HasCleanDisk (state S.Store conn.new)
        → OnOk result (IsTrue (state S.Store conn.new).is_open) }
    ensures settled { ShowsCommitIfDone (state S.Store conn.new) result }
    ensures survives { Survives (state S.Store conn.old) (state S.Store conn.new) (λ _. ⊥) }
{
    ask(
        conn,
        "SELECT place, source, id, number, body, block FROM inbox2 WHERE place > ?1 ORDER BY place LIMIT ?2",
        params![place, count],
    )
}

/// The events of rows that were shown of the inbox's table, in their order. `Foreign` at the first
/// row that isn't that of an event.
fn events_in(alloc: Global, rows: &[Row]) -> Result<Batch, TableFault>
    ensures events { IfOk result (λ batch. (events : List EventValue)
        → AreShown rows.now events → batch ≡ events) }
    ensures foreign { IfErr result (λ f. f ≡ Foreign
        → (events : List EventValue) → AreShown rows.now events → ⊥) }
{
    let mut batch = Batch::empty(alloc);
    for row in rows {
        let event = match placed_event(alloc, row) {
            Ok(event) => event,
            Err(fault) => return Err(fault),
        };
        batch.push(event)?;
    }
    Ok(batch)
}

/// The events of an inbox's table with this source and id, in the order of their places. `Store`
/// where the database has no table of version 2, or other tables than ours.
#[tactic(auto, using(crate::proofs::SameLemmas::is_same))]
pub(crate) fn find_named<S: Alter>(
    alloc: Global,
    conn: &mut Connection<S>,
    source: &str,
    id: &str,
) -> Result<Batch, TableFault>
    ensures tells { HasCleanDisk (state S.Store conn.new) → IfOk result (λ batch.
        (l : List EventValue) → IsInbox (state S.Store conn.old).now l
        → batch ≡ events_named source.now id.now l) }
    ensures foreign { HasCleanDisk (state S.Store conn.new) → IfErr result (λ f. f ≡ Foreign
        → (l : List EventValue) → IsInbox (state S.Store conn.old).now l → ⊥) }
    ensures same { IsTableReading (state S.Store conn.old) (state S.Store conn.new) }
    ensures open { HasCleanDisk (state S.Store conn.new)
        → OnOk result (IsTrue (state S.Store conn.new).is_open) }
    ensures settled { ShowsCommitIfDone (state S.Store conn.new) result }
    ensures survives { Survives (state S.Store conn.old) (state S.Store conn.new) (λ _. ⊥) }
{
    if !is_there(conn.schema()) {
        return Err(TableFault::Store);
    }
    let rows = rows_named(conn, source, id)?;
    events_in(alloc, &rows)
}

/// The events of an inbox's table at so many places behind one, or those that are there, in order.
/// It is refused as [`find_named`] is.
#[tactic(auto, using(crate::proofs::SameLemmas::is_same))]
pub(crate) fn find_after<S: Alter>(
    alloc: Global,
    conn: &mut Connection<S>,
    place: u64,
    count: u64,
) -> Result<Batch, TableFault>
    requires place { place < 2 ^ 63 }
    requires count { count < 2 ^ 63 }
    ensures tells { HasCleanDisk (state S.Store conn.new) → IfOk result (λ batch.
        (l : List EventValue) → IsInbox (state S.Store conn.old).now l
        → batch ≡ events_after place count l) }
    ensures foreign { HasCleanDisk (state S.Store conn.new) → IfErr result (λ f. f ≡ Foreign
        → (l : List EventValue) → IsInbox (state S.Store conn.old).now l → ⊥) }
    ensures same { IsTableReading (state S.Store conn.old) (state S.Store conn.new) }
    ensures open { HasCleanDisk (state S.Store conn.new)
        → OnOk result (IsTrue (state S.Store conn.new).is_open) }
    ensures settled { ShowsCommitIfDone (state S.Store conn.new) result }
    ensures survives { Survives (state S.Store conn.old) (state S.Store conn.new) (λ _. ⊥) }
{
    if !is_there(conn.schema()) {
        return Err(TableFault::Store);
    }
    let rows = rows_after(conn, signed(place), signed(count))?;
    events_in(alloc, &rows)
}
