//! What a database has to be to be taken as a table.

ghost use Rattle.std.specs.Prelude.{◌≡◌, ◌⊎◌, true, false, Err, List, length, IsTrue, IfOk, IfErr, OnOk};
ghost use Rattle.sqlite.specs.Held.{state};
ghost use Rattle.sqlite.specs.State.{HasCleanDisk, Survives};
ghost use Rattle.attributes.specs.Event.{EventValue};
ghost use Rattle.database_layout.specs.Layout.{HasInboxForm, has_inbox};
ghost use Rattle.inbox_table.specs.Calls.{IsTold, LeavesUpgrade, Rejects, has_both};
ghost use Rattle.inbox_table.specs.Rows.{IsInbox, IsOldInbox};
ghost use Rattle.inbox_table.specs.steps.Reads.{IsTableReading, TellsRows};
ghost use Rattle.inbox_table.specs.steps.Upgrades.{HasAdopted};
ghost use Rattle.inbox_table.specs.declared.fault.TableFault.TheVariants.{Foreign, Store};
ghost use Rattle.inbox_table.specs.declared.version.Version.TheVariants.{Two};
ghost use Rattle.database_layout.specs.States.{ShowsCommitIfDone};

use crate::fault::TableFault;
use crate::reading::{Found, read};
use crate::upgrade::upgrade;
use crate::version::Version;
use crate::wanted::{Each, Wanted};
use crate::watch::Watch;
use database_layout::{Layout, has_inbox, has_inbox_form};
use sqlite::{Alter, Connection};
use sqlite_schema::schema::Schema;
use std::alloc::Global;

/// How many rows an inbox's table of version 2 has, and the wanted of their events. `Store` where
/// the database has none, or other tables than ours.
#[tactic(auto, using(crate::proofs::SameLemmas::is_same))]
pub(crate) fn listed_in<S: Alter, W: Wanted>(
    alloc: Global,
    conn: &mut Connection<S>,
    wanted: &W,
) -> Result<Found, TableFault>
    ensures tells { HasCleanDisk (state S.Store conn.new) → IfOk result (λ f. TellsRows Two
        (W.wanted wanted.now) (state S.Store conn.old).now f.rows f.events) }
    ensures foreign { HasCleanDisk (state S.Store conn.new) → IfErr result (λ f. f ≡ Foreign
        → (l : List EventValue) → IsInbox (state S.Store conn.old).now l → ⊥) }
    ensures same { IsTableReading (state S.Store conn.old) (state S.Store conn.new) }
    ensures open { HasCleanDisk (state S.Store conn.new)
        → OnOk result (IsTrue (state S.Store conn.new).is_open) }
    ensures settled { ShowsCommitIfDone (state S.Store conn.new) result }
    ensures survives { Survives (state S.Store conn.old) (state S.Store conn.new) (λ _. ⊥) }
{
    let Some(layout) = Layout::of(conn.schema()) else {
        return Err(TableFault::Store);
    };
    if !layout.has_inbox2() {
        return Err(TableFault::Store);
    }
    read(alloc, conn, Version::Two, wanted)
}

/// Whether both versions of the inbox's table are there, in whatever form.
fn has_both(schema: &Schema) -> bool
    ensures { result ≡ has_both schema.now }
{
    schema.table_named(b"inbox").is_some() && schema.table_named(b"inbox2").is_some()
}

/// Why a database that has other tables than ours is no inbox's table: `Store` where one of our
/// form lies beside them.
pub(crate) fn stranger(schema: &Schema) -> TableFault
    ensures both { has_both schema.now ≡ true → result ≡ Foreign }
    ensures foreign { result ≡ Foreign
        → (has_both schema.now ≡ true) ⊎ (¬ HasInboxForm schema.now.tables) }
{
    if !has_both(schema) && has_inbox_form(schema) {
        TableFault::Store
    } else {
        TableFault::Foreign
    }
}

/// How many rows the inbox's table has, and their events where these are to be kept, where there is
/// one whose rows the calls can have left so. One of version 1 gives way to one of version 2; the
/// watch is told after each thousand how many of its events are in that.
pub(crate) fn found_in<S: Alter, W: Watch>(
    alloc: Global,
    conn: &mut Connection<S>,
    keeps: bool,
    watch: &W,
) -> Result<Found, TableFault>
    ensures adopts { HasCleanDisk (state S.Store conn.new) → IfOk result (λ f. HasAdopted keeps
        (state S.Store conn.old) (state S.Store conn.new) f.rows f.events) }
    ensures told { HasCleanDisk (state S.Store conn.new) → OnOk result (
        (events : List EventValue) → IsOldInbox (state S.Store conn.old).now events
        → IsTold (W.told watch.now) (length events)) }
    ensures rejects { IfErr result (Rejects (state S.Store conn.old) (state S.Store conn.new)) }
    ensures missing { has_inbox (state S.Store conn.old).now.schema ≡ false
        → result ≡ Err Foreign }
    ensures both { has_both (state S.Store conn.old).now.schema ≡ true → result ≡ Err Foreign }
    ensures crash { LeavesUpgrade (state S.Store conn.old) (state S.Store conn.new) }
{
    if !has_inbox(conn.schema()) {
        return Err(TableFault::Foreign);
    }
    let Some(layout) = Layout::of(conn.schema()) else {
        return Err(stranger(conn.schema()));
    };
    if layout.has_inbox2() {
        return match read(alloc, conn, Version::Two, &Each { keeps }) {
            Ok(found) => Ok(found),
            Err(fault) => Err(fault),
        };
    }
    if layout.has_inbox() {
        return upgrade(alloc, conn, layout, watch);
    }
    Err(TableFault::Store)
}
