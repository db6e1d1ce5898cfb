//! The table of a database's inbox, with its events.
ghost use Rattle.std.specs.Prelude.{◌≡◌, List, length, true, IfErr, IfOk, IsErrAnd, IsTrue};
ghost use Rattle.sqlite.specs.Held.{state};
ghost use Rattle.sqlite.specs.State.{HasCleanDisk};
ghost use Rattle.attributes.specs.Event.{EventValue};
ghost use Rattle.inbox_table.specs.Calls.{IsAsItWas, IsSettled, has_both};
ghost use Rattle.inbox_table.specs.Rows.{IsInbox};
ghost use Rattle.inbox_table.specs.declared.fault.TableFault.TheVariants as TableFault;
ghost use Rattle.databases.specs.Held.{Holds, IsNoInbox, KeepsRows};
ghost use Rattle.databases.specs.Done.{LeavesHeld};

use inbox_table::{Loaded, NotMade, Table, Unwatched};
use sqlite::{Alter, Connection};
use std::alloc::Global;

/// The inbox's table of a database with its events, made where there is none; one of version 1
/// gives way to one of version 2.
pub fn load_table<S: Alter + Drop>(
    alloc: Global,
    conn: Connection<S>,
) -> Result<Loaded<S>, NotMade<S>>
    ensures events { IfOk result (λ l. HasCleanDisk (state S.Store l.table.conn)
        → (held : List EventValue) → Holds (state S.Store conn).now held → l.events ≡ held) }
    ensures found { IfOk result (λ l. HasCleanDisk (state S.Store l.table.conn)
        → IsInbox (state S.Store l.table.conn).now l.events) }
    ensures held { IfOk result (λ l. HasCleanDisk (state S.Store l.table.conn)
        → Holds (state S.Store conn).now l.events) }
    ensures rows { IfOk result (λ l. l.table.rows ≡ length l.events) }
    ensures stays_open { IfOk result (λ l. HasCleanDisk (state S.Store l.table.conn)
        → IsTrue (state S.Store l.table.conn).is_open) }
    ensures settled { IfOk result (λ l. HasCleanDisk (state S.Store l.table.conn)
        → IsSettled (state S.Store l.table.conn)) }
    ensures back { IfErr result (λ n. IsAsItWas (state S.Store conn) (state S.Store n.conn)) }
    ensures crash { IfOk result (λ l. LeavesHeld (state S.Store conn) (state S.Store l.table.conn)) }
    ensures crash_refused { IfErr result (λ n. LeavesHeld (state S.Store conn) (state S.Store n.conn)) }
    ensures beside { IfOk result (λ l. HasCleanDisk (state S.Store l.table.conn)
        → KeepsRows (state S.Store conn).now (state S.Store l.table.conn).now) }
    ensures foreign { IfErr result (λ n. n.fault ≡ TableFault.Foreign
        → HasCleanDisk (state S.Store n.conn) → IsNoInbox (state S.Store conn).now) }
    ensures both { has_both (state S.Store conn).now.schema ≡ true
        → IsErrAnd result (λ n. n.fault ≡ TableFault.Foreign) }
{
    Table::open_and_load(alloc, conn, &Unwatched)
}
