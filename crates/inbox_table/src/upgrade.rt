//! A table of version 2 in the place of one of version 1.

ghost use Rattle.std.specs.Prelude.{◌≡◌, ◌<◌, ◌^◌, true, length, IsTrue, IfErr, IfOk, OnErr, OnOk};
ghost use Rattle.sqlite.specs.Held.{state};
ghost use Rattle.sqlite.specs.State.{HasCleanDisk, Survives};
ghost use Rattle.database_layout.specs.Layout.{HasInbox, schema_in};
ghost use Rattle.inbox_table.specs.Calls.{IsAsItWas, IsTold, LeavesUpgrade, MayUpgrade, Rejects};
ghost use Rattle.inbox_table.specs.Rows.{IsOldInbox};
ghost use Rattle.inbox_table.specs.steps.Upgrades.{Copies, HasAdopted, Refills};
ghost use Rattle.database_layout.specs.States.{KeepsCommitIfRefused, WasOpen};

use crate::fault::TableFault;
use crate::reading::{Found, read};
use crate::statement::put_all;
use crate::table::MAX_PLACE;
use crate::version::Version;
use crate::wanted::Each;
use crate::watch::Watch;
use attributes::Batch;
use database_layout::{Layout, drop_inbox, make_inbox};
use sqlite::{Alter, Connection, Error, ErrorCode, Transaction};
use std::alloc::Global;

/// Makes the inbox's table of version 2, puts the events of that of version 1 in, each at its old
/// place, and drops that of version 1. The watch is told after each thousand how many are in.
fn refill<S: Alter, W: Watch>(
    alloc: Global,
    tx: &mut Transaction<'_, S>,
    layout: Layout,
    events: &Batch,
    watch: &W,
) -> Result<(), Error>
    requires has { HasInbox layout }
    requires schema { HasCleanDisk (state S.Store tx.old.conn.now)
        → (state S.Store tx.old.conn.now).now.schema ≡ schema_in layout }
    requires short { length events.now < 2 ^ 63 }
    ensures same_reference { tx.new.conn.ghost_name ≡ tx.old.conn.ghost_name }
    ensures refills { HasCleanDisk (state S.Store tx.new.conn.now)
        → IsTrue (state S.Store tx.old.conn.now).in_transaction
        → OnOk result (Refills events.now
        (state S.Store tx.old.conn.now) (state S.Store tx.new.conn.now)) }
    ensures told { OnOk result (IsTold (W.told watch.now) (length events.now)) }
    ensures failed { KeepsCommitIfRefused (state S.Store tx.old.conn.now)
        (state S.Store tx.new.conn.now) result }
    ensures survives { Survives
        (state S.Store tx.old.conn.now) (state S.Store tx.new.conn.now) (λ _. ⊥) }
{
    make_inbox(tx)?;
    put_all(alloc, tx, 0, events, watch)?;
    drop_inbox(tx)?;
    Ok(())
}

/// Copies the events of the inbox's table of version 1, which are these, into one of version 2 in
/// its place, in one transaction. The watch is told as in [`refill`].
fn copy<S: Alter, W: Watch>(
    alloc: Global,
    conn: &mut Connection<S>,
    layout: Layout,
    events: &Batch,
    watch: &W,
) -> Result<(), Error>
    requires has { HasInbox layout }
    requires schema { HasCleanDisk (state S.Store conn.old)
        → (state S.Store conn.old).now.schema ≡ schema_in layout }
    requires short { length events.now < 2 ^ 63 }
    ensures copies { HasCleanDisk (state S.Store conn.new)
        → IsOldInbox (state S.Store conn.old).now events.now
        → OnOk result (Copies events.now (state S.Store conn.old).now (state S.Store conn.new)) }
    ensures told { OnOk result (IsTold (W.told watch.now) (length events.now)) }
    ensures was_open { WasOpen (state S.Store conn.old) (state S.Store conn.new) }
    ensures same { OnErr result (IsAsItWas (state S.Store conn.old) (state S.Store conn.new)) }
    ensures crash { Survives (state S.Store conn.old) (state S.Store conn.new) (λ trees.
        IsOldInbox (state S.Store conn.old).now events.now
        → MayUpgrade (state S.Store conn.old).now trees) }
{
    if !conn.is_autocommit() {
        return Err(Error::SqliteFailure(ErrorCode::TransactionState));
    }
    let mut tx = conn.transaction();
    refill(alloc, &mut tx, layout, events, watch)?;
    tx.commit()
}

/// Tests each row of an inbox's table of version 1, and then puts one of version 2 with its events
/// in its place. Its events. The watch is told after each thousand how many of them are in.
pub(crate) fn upgrade<S: Alter, W: Watch>(
    alloc: Global,
    conn: &mut Connection<S>,
    layout: Layout,
    watch: &W,
) -> Result<Found, TableFault>
    requires has { HasInbox layout }
    requires schema { (state S.Store conn.old).now.schema ≡ schema_in layout }
    ensures adopts { HasCleanDisk (state S.Store conn.new) → IfOk result (λ f. HasAdopted true
        (state S.Store conn.old) (state S.Store conn.new) f.rows f.events) }
    ensures told { IfOk result (λ f. IsTold (W.told watch.now) (length f.events)) }
    ensures rejects { IfErr result (Rejects (state S.Store conn.old) (state S.Store conn.new)) }
    ensures crash { LeavesUpgrade (state S.Store conn.old) (state S.Store conn.new) }
{
    let found = match read(alloc, conn, Version::One, &Each { keeps: true }) {
        Ok(found) => found,
        Err(fault) => return Err(fault),
    };
    let events = found.events;
    let rows = events.len();
    if rows > MAX_PLACE {
        return Err(TableFault::Store);
    }
    match copy(alloc, conn, layout, &events, watch) {
        Ok(()) => Ok(Found { rows, events }),
        Err(error) => Err(TableFault::from(error)),
    }
}
