//! The inbox of a database: its table, and taking events into it.
ghost use Rattle.std.specs.Prelude.{◌≡◌, ◌⊎◌, ℕ, List, length, true, IfErr, IfOk, IsErrAnd, IsErrOf, IsTrue, OnOk};
ghost use Rattle.sqlite.specs.Held.{state};
ghost use Rattle.sqlite.specs.State.{HasCleanDisk, Survives};
ghost use Rattle.attributes.specs.Event.{EventValue};
ghost use Rattle.inbox_table.specs.Calls.{IsAsItWas, IsTold, MayTake, Takes, has_both};
ghost use Rattle.inbox_table.specs.Rows.{IsInbox};
ghost use Rattle.inbox_table.specs.declared.fault.TableFault.TheVariants as TableFault;
ghost use Rattle.databases.specs.declared.fault.CommandFault.TheVariants.{Foreign, OutOfMemory, Store};
ghost use Rattle.databases.specs.Held.{Holds, IsNoInbox, IsTaken, IsUntold, KeepsOrTakes, KeepsRows, MayHoldMore, TakesInto, TellsUpgrade};
ghost use Rattle.databases.specs.Print.{counts_line};
ghost use Rattle.databases.specs.Done.{LeavesHeld, LeavesRows, OpenIfDone, SettledIfDone};

use crate::command::CommandEnd;
use attributes::{Batch, Text};
use databases::{CommandFault, counts_line, of_table};
use inbox_table::{NotMade, Table, Watch};
use sqlite::{Alter, Connection};
use std::alloc::Global;

/// Adds the events that a database doesn't have, each in its turn, and answers the line that says
/// how many of them were new. The table is made where there is none, in a transaction before that
/// of the events; those that are there already are read once and not kept. The watch is told from
/// time to time how many of the batch are in, and before that, where a table of version 1 gives
/// way, how many of its events are. A refusal leaves what the database held; only where the memory for the line is
/// wanted may the events be in. A service beside the inbox stays as it is.
pub fn take<S: Alter + Drop, W: Watch>(
    alloc: Global,
    conn: Connection<S>,
    events: &Batch,
    watch: &W,
) -> CommandEnd<S, Text>
    ensures taken { HasCleanDisk (state S.Store result.conn) → IfOk result.outcome
        (TakesInto events.now (state S.Store conn).now (state S.Store result.conn).now) }
    ensures left { HasCleanDisk (state S.Store result.conn)
        → IsTrue (state S.Store result.conn).is_open → IfErr result.outcome (λ f. KeepsOrTakes
        events.now f (state S.Store conn).now (state S.Store result.conn).now) }
    ensures line { IfOk result.outcome (λ text.
        (fresh : ℕ) × (text ≡ counts_line (length events.now) fresh)) }
    ensures beside { LeavesRows (state S.Store conn) (state S.Store result.conn) }
    ensures told { OnOk result.outcome (IsTold (W.told watch.now) (length events.now)) }
    ensures upgraded { HasCleanDisk (state S.Store result.conn) → OnOk result.outcome
        (TellsUpgrade (W.told watch.now) (state S.Store conn).now) }
    ensures stays_open { OpenIfDone (state S.Store result.conn) result.outcome }
    ensures settled { SettledIfDone (state S.Store result.conn) result.outcome }
    ensures crash { Survives (state S.Store conn) (state S.Store result.conn)
        (MayHoldMore events.now (state S.Store conn).now) }
    ensures foreign { IfErr result.outcome (λ f. f ≡ Foreign
        → HasCleanDisk (state S.Store result.conn) → IsNoInbox (state S.Store conn).now) }
    ensures both { has_both (state S.Store conn).now.schema ≡ true
        → IsErrOf result.outcome Foreign }
    ensures fault { IfErr result.outcome IsUntold }
{
    match adopted(alloc, conn, watch) {
        Ok(mut table) => {
            let outcome = kept(alloc, &mut table, events, watch);
            let conn = table.into_connection();
            CommandEnd { conn, outcome }
        }
        Err(refused) => {
            let NotMade { conn, fault } = refused;
            let outcome = Err(of_table(fault));
            CommandEnd { conn, outcome }
        }
    }
}

/// The table of a database, made where there is none. Its events are read once and not kept. Where
/// a table of version 1 gives way, the watch is told how many of its events are in the new one.
pub(crate) fn adopted<S: Alter + Drop, W: Watch>(
    alloc: Global,
    conn: Connection<S>,
    watch: &W,
) -> Result<Table<S>, NotMade<S>>
    ensures held { IfOk result (λ t. HasCleanDisk (state S.Store t.conn)
        → (held : List EventValue) → Holds (state S.Store conn).now held
        → IsInbox (state S.Store t.conn).now held) }
    ensures back { IfErr result (λ n. IsAsItWas (state S.Store conn) (state S.Store n.conn)) }
    ensures beside { IfOk result (λ t. HasCleanDisk (state S.Store t.conn)
        → KeepsRows (state S.Store conn).now (state S.Store t.conn).now) }
    ensures upgraded { IfOk result (λ t. HasCleanDisk (state S.Store t.conn)
        → TellsUpgrade (W.told watch.now) (state S.Store conn).now) }
    ensures found { IfOk result (λ t. HasCleanDisk (state S.Store t.conn)
        → (held : List EventValue) × Holds (state S.Store conn).now held) }
    ensures stays_open { IfOk result (λ t. HasCleanDisk (state S.Store t.conn)
        → IsTrue (state S.Store t.conn).is_open) }
    ensures crash { IfOk result (λ t. LeavesHeld (state S.Store conn) (state S.Store t.conn)) }
    ensures crash_refused { IfErr result (λ n. LeavesHeld (state S.Store conn) (state S.Store n.conn)) }
    ensures foreign { IfErr result (λ n. n.fault ≡ TableFault.Foreign
        → HasCleanDisk (state S.Store n.conn) → IsNoInbox (state S.Store conn).now) }
    ensures both { has_both (state S.Store conn).now.schema ≡ true
        → IsErrAnd result (λ n. n.fault ≡ TableFault.Foreign) }
{
    Table::open(alloc, conn, watch)
}

/// Keeps the events in a database's table, and answers the line that says how many were new.
fn kept<S: Alter + Drop, W: Watch>(
    alloc: Global,
    table: &mut Table<S>,
    events: &Batch,
    watch: &W,
) -> Result<Text, CommandFault>
    ensures taken { HasCleanDisk (state S.Store table.new.conn) → IfOk result (λ text.
        (held : List EventValue) → IsInbox (state S.Store table.old.conn).now held
        → IsTaken events.now held (state S.Store table.new.conn).now text) }
    ensures line { IfOk result (λ text.
        (fresh : ℕ) × (text ≡ counts_line (length events.now) fresh)) }
    ensures clean { HasCleanDisk (state S.Store table.new.conn)
        → HasCleanDisk (state S.Store table.old.conn) }
    ensures left { HasCleanDisk (state S.Store table.new.conn)
        → IsTrue (state S.Store table.new.conn).is_open → IfErr result (λ f.
        ((state S.Store table.new.conn).now ≡ (state S.Store table.old.conn).now)
        ⊎ ((f ≡ OutOfMemory) × Takes events.now
        (state S.Store table.old.conn).now (state S.Store table.new.conn).now)) }
    ensures beside { LeavesRows (state S.Store table.old.conn) (state S.Store table.new.conn) }
    ensures told { OnOk result (IsTold (W.told watch.now) (length events.now)) }
    ensures stays_open { OpenIfDone (state S.Store table.new.conn) result }
    ensures settled { SettledIfDone (state S.Store table.new.conn) result }
    ensures crash { Survives (state S.Store table.old.conn) (state S.Store table.new.conn)
        (λ trees. IsTrue (state S.Store table.old.conn).is_open
        → MayTake events.now (state S.Store table.old.conn).now trees) }
    ensures fault { IfErr result (λ f. (f ≡ OutOfMemory) ⊎ (f ≡ Store)) }
{
    match table.keep_watched(events, watch) {
        Ok(fresh) => counts_line(alloc, events.len(), fresh),
        Err(fault) => Err(of_table(fault)),
    }
}
