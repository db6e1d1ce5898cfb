//! A look at the table of a database, which leaves it as it is.

ghost use Rattle.std.specs.Prelude.{◌≡◌, true, false, Err, IfOk, IfErr, IfSome, IsTrue, OnOk};
ghost use Rattle.sqlite.specs.Held.{state};
ghost use Rattle.sqlite.specs.State.{HasCleanDisk, Survives};
ghost use Rattle.database_layout.specs.Layout.{has_inbox};
ghost use Rattle.inbox_table.specs.Calls.{Finds, IsAsItWas, IsSettled, Rejects, has_both};
ghost use Rattle.inbox_table.specs.steps.Reads.{HasVersion};
ghost use Rattle.inbox_table.specs.declared.fault.TableFault.TheVariants.{Foreign};

use crate::adoption::stranger;
use crate::fault::TableFault;
use crate::reading::{Found, read};
use crate::version::Version;
use crate::wanted::Each;
use attributes::Batch;
use database_layout::{Layout, has_inbox};
use sqlite::{Alter, Connection};
use sqlite_schema::schema::Schema;
use std::alloc::Global;

/// The table that a database has.
#[derive(Drop)]
pub struct Inspected {
    /// Its version.
    pub version: Version,
    /// Its events in the order of their places.
    pub events: Batch,
}

/// The version of the inbox's table that a database has beside nothing but tables of ours.
fn version_in(schema: &Schema) -> Option<Version>
    ensures { IfSome result (λ v. HasVersion v schema.now) }
{
    let layout = Layout::of(schema)?;
    if layout.has_inbox2() {
        return Some(Version::Two);
    }
    if layout.has_inbox() {
        return Some(Version::One);
    }
    None
}

/// The version and the events of the inbox's table that is in a database. It is tested as
/// [`crate::Table::adopt_and_load`] tests it, and refused for the same faults, but nothing is
/// written: one of version 1 stays what it is. Time and memory in proportion to the events.
pub fn inspect<S: Alter>(alloc: Global, conn: &mut Connection<S>) -> Result<Inspected, TableFault>
    ensures finds { HasCleanDisk (state S.Store conn.new) → IfOk result (λ i.
        Finds (state S.Store conn.old).now i.version i.events) }
    ensures rejects { IfErr result (Rejects (state S.Store conn.old) (state S.Store conn.new)) }
    ensures missing { has_inbox (state S.Store conn.old).now.schema ≡ false
        → result ≡ Err Foreign }
    ensures both { has_both (state S.Store conn.old).now.schema ≡ true → result ≡ Err Foreign }
    ensures same { IsAsItWas (state S.Store conn.old) (state S.Store conn.new) }
    ensures open { HasCleanDisk (state S.Store conn.new)
        → OnOk result (IsTrue (state S.Store conn.new).is_open) }
    ensures settled { HasCleanDisk (state S.Store conn.new)
        → OnOk result (IsSettled (state S.Store conn.new)) }
    ensures crash { Survives (state S.Store conn.old) (state S.Store conn.new) (λ _. ⊥) }
{
    if !has_inbox(conn.schema()) {
        return Err(TableFault::Foreign);
    }
    let Some(version) = version_in(conn.schema()) else {
        return Err(stranger(conn.schema()));
    };
    match read(alloc, conn, version, &Each { keeps: true }) {
        Ok(found) => {
            let Found { rows: _, events } = found;
            Ok(Inspected { version, events })
        }
        Err(fault) => Err(fault),
    }
}
