//! A table of a database, whether one is there or not.

ghost use Rattle.std.specs.Prelude.{◌≡◌, true, List, length, IfErr, IfOk, IsErrAnd};
ghost use Rattle.sqlite.specs.Held.{state};
ghost use Rattle.sqlite.specs.State.{HasCleanDisk};
ghost use Rattle.attributes.specs.Event.{EventValue};
ghost use Rattle.inbox_table.specs.Calls.{has_both};
ghost use Rattle.inbox_table.specs.Opening.{LeavesOpening, Opens, RejectsOpening};
ghost use Rattle.inbox_table.specs.declared.fault.TableFault.TheVariants.{Foreign};

use crate::adoption::found_in;
use crate::reading::Found;
use crate::table::{Loaded, NotMade, Table};
use crate::watch::Watch;
use attributes::Batch;
use database_layout::has_inbox;
use sqlite::{Alter, Connection};
use std::alloc::Global;

impl<S: Alter> Table<S> {
    /// The table of a database, as [`Table::adopt_and_load`] takes it over where one of either name
    /// is there, else as [`Table::create`] makes it, without events. Where one of version 1 gives
    /// way, the watch is told after each thousand how many of its events are in the new one.
    ///
    /// It is refused as these are; `Foreign` only where a table of either name is there.
    #[tactic(auto, using(crate::proofs::TableLemmas::loaded_stands))]
    pub fn open_and_load<W: Watch>(
        alloc: Global,
        conn: Connection<S>,
        watch: &W,
    ) -> Result<Loaded<S>, NotMade<S>>
        ensures opens { IfOk result (λ l. HasCleanDisk (state S.Store l.table.conn)
            → Opens (W.told watch.now)
            (state S.Store conn) (state S.Store l.table.conn) l.events) }
        ensures rows { IfOk result (λ l. l.table.rows ≡ length l.events) }
        ensures rejects { IfErr result (λ n.
            RejectsOpening (state S.Store conn) (state S.Store n.conn) n.fault) }
        ensures both { has_both (state S.Store conn).now.schema ≡ true
            → IsErrAnd result (λ n. n.fault ≡ Foreign) }
        ensures crash { IfOk result (λ l. LeavesOpening (state S.Store conn) (state S.Store l.table.conn)) }
        ensures crash_refused { IfErr result (λ n. LeavesOpening (state S.Store conn) (state S.Store n.conn)) }
    {
        if !has_inbox(conn.schema()) {
            let table = match Table::create(alloc, conn) {
                Ok(table) => table,
                Err(refused) => return Err(refused),
            };
            let events = Batch::empty(alloc);
            return Ok(Loaded { table, events });
        }
        let mut conn = conn;
        match found_in(alloc, &mut conn, true, watch) {
            Ok(found) => {
                let Found { rows: _, events } = found;
                let rows = events.len();
                let table = Table { conn, rows, alloc };
                Ok(Loaded { table, events })
            }
            Err(fault) => Err(NotMade { conn, fault }),
        }
    }

    /// As [`Table::open_and_load`] of the inbox, without giving the events; those of a table of
    /// version 2 aren't kept in memory.
    #[tactic(auto, using(crate::proofs::TableLemmas::adopted_stands))]
    pub fn open<W: Watch>(
        alloc: Global,
        conn: Connection<S>,
        watch: &W,
    ) -> Result<Table<S>, NotMade<S>>
        ensures opens { IfOk result (λ t. HasCleanDisk (state S.Store t.conn)
            → (events : List EventValue) × (t.rows ≡ length events)
            × Opens (W.told watch.now) (state S.Store conn) (state S.Store t.conn) events) }
        ensures rejects { IfErr result (λ n.
            RejectsOpening (state S.Store conn) (state S.Store n.conn) n.fault) }
        ensures both { has_both (state S.Store conn).now.schema ≡ true
            → IsErrAnd result (λ n. n.fault ≡ Foreign) }
        ensures crash { IfOk result (λ t. LeavesOpening (state S.Store conn) (state S.Store t.conn)) }
        ensures crash_refused { IfErr result (λ n. LeavesOpening (state S.Store conn) (state S.Store n.conn)) }
    {
        if !has_inbox(conn.schema()) {
            return Table::create(alloc, conn);
        }
        let mut conn = conn;
        match found_in(alloc, &mut conn, false, watch) {
            Ok(found) => {
                let Found { rows, events: _ } = found;
                Ok(Table { conn, rows, alloc })
            }
            Err(fault) => Err(NotMade { conn, fault }),
        }
    }
}
