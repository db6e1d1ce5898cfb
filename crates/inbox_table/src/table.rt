//! The table of a database, as a list of distinct events.

ghost use Rattle.std.specs.Prelude.{◌≡◌, true, false, List, length, IsTrue, IfOk, IfErr, IsErrAnd, OnOk};
ghost use Rattle.sqlite.specs.Held.{state};
ghost use Rattle.sqlite.specs.State.{HasCleanDisk, Survives};
ghost use Rattle.attributes.specs.Event.{EventValue};
ghost use Rattle.database_layout.specs.Layout.{has_inbox};
ghost use Rattle.inbox_table.specs.Calls.{Adopts, Creates, IsAsItWas, IsTold, KeepCall, KeepEachCall, KeepEachEffect, KeepEffect, LeavesUpgrade, MayMake, MayTake, ReadEffect, Rejects, StandsFor, has_both, joined};
ghost use Rattle.inbox_table.specs.Rows.{events_after, events_named, events_of_block};
ghost use Rattle.inbox_table.specs.declared.fault.TableFault.TheVariants.{Foreign};

use crate::adoption::{found_in, listed_in};
use crate::creation::create;
use crate::fault::TableFault;
use crate::listed::Listed;
use crate::lists::{keep_lists, length_of, total};
use crate::lookup::{find_after, find_named};
use crate::reading::Found;
use crate::statement::keep;
use crate::wanted::{Each, OfBlock};
use crate::watch::{Unwatched, Watch};
use attributes::{Batch, List};
use sqlite::{Alter, Connection};
use std::alloc::Global;
use std::marker::Model;

/// The greatest place of a row, 2^63 - 1.
pub(crate) const MAX_PLACE: u64 = 9_223_372_036_854_775_807;

/// A list of distinct events, kept in a table of a database. Contracts see the connection and how
/// many events there are; while the disk gives back what was written and the connection is open,
/// the database has the table with so many events.
pub struct Table<S: Alter> {
    pub(crate) conn: Connection<S>,
    pub(crate) rows: u64,
    pub(crate) alloc: Global,
}

/// A connection of which no table was made, and why.
#[derive(Drop)]
pub struct NotMade<S: Alter> {
    pub conn: Connection<S>,
    pub fault: TableFault,
}

/// A table, and the events that it had when it was taken.
#[derive(Drop)]
pub struct Loaded<S: Alter> {
    pub table: Table<S>,
    pub events: Batch,
}

impl<S: Alter> Model for Table<S> {
    ghost use Rattle.sqlite.specs.Held.{state};
    ghost use Rattle.inbox_table.specs.Calls.{KeptTable, StandsFor};
    ghost use Rattle.inbox_table.specs.Codes.{kept_table_code};

    ghost Value = { KeptTable S };

    ghost coded = { kept_table_code S.code };

    ghost view = { λ t. record { conn = t.conn; rows = t.rows } };

    ghost invariant = { λ t. StandsFor (state S.Store t.conn) t.rows };
}

impl<S: Alter + Drop> Drop for Table<S> {
    fn drop(self) {
        let Table {
            conn: _,
            rows: _,
            alloc: _,
        } = self;
    }
}

impl<S: Alter> Table<S> {
    /// Makes the table, of version 2, in a database that has none of either version, and has
    /// nothing else but a service. The table has no events.
    ///
    /// `Foreign` where a table of either name is there, which is tested first and needs no memory;
    /// `Store` where other tables, indexes or views are there, a transaction is open, or the
    /// database refuses. The connection comes back.
    #[tactic(auto, using(crate::proofs::TableLemmas::made_stands))]
    pub fn create(alloc: Global, conn: Connection<S>) -> Result<Table<S>, NotMade<S>>
        ensures made { IfOk result (λ t. HasCleanDisk (state S.Store t.conn)
            → Creates (state S.Store conn) (state S.Store t.conn)) }
        ensures rows { IfOk result (λ t. t.rows ≡ 0) }
        ensures there { has_inbox (state S.Store conn).now.schema ≡ true
            → IsErrAnd result (λ n. n.fault ≡ Foreign) }
        ensures foreign { IfErr result (λ n. n.fault ≡ Foreign
            → has_inbox (state S.Store conn).now.schema ≡ true) }

        // A table of the name is found before the database is asked for anything.
        ensures untouched { IfErr result (λ n. n.fault ≡ Foreign → n.conn ≡ conn) }
        ensures same { IfErr result (λ n. IsAsItWas (state S.Store conn) (state S.Store n.conn)) }
        ensures crash { IfOk result (λ t. Survives (state S.Store conn) (state S.Store t.conn)
            (MayMake (state S.Store conn).now)) }
        ensures crash_refused { IfErr result (λ n. Survives
            (state S.Store conn) (state S.Store n.conn) (MayMake (state S.Store conn).now)) }
    {
        let mut conn = conn;
        match create(&mut conn) {
            Ok(()) => Ok(Table {
                conn,
                rows: 0,
                alloc,
            }),
            Err(fault) => Err(NotMade { conn, fault }),
        }
    }

    /// Takes the table that is in a database, with its events in the order of their places. Each
    /// row is read once. One of version 1 is tested first, and then, in one transaction, its events
    /// go to a table of version 2 at the places that they had, and it is dropped: time and memory
    /// in proportion to the events, as to keep them anew.
    ///
    /// `Foreign` where there is no table of the name and form, or one of each version, where a
    /// place isn't the row's position from 1, where a body isn't the canonical text of an event
    /// with a number, where the other columns differ from that event, or the block from its number;
    /// `Store` where the table is there and beside it others than those of a service, a transaction
    /// is open, or the database refuses. The connection comes back, and nothing is changed.
    #[tactic(auto, using(crate::proofs::TableLemmas::loaded_stands))]
    pub fn adopt_and_load(alloc: Global, conn: Connection<S>) -> Result<Loaded<S>, NotMade<S>>
        ensures adopts { IfOk result (λ l. HasCleanDisk (state S.Store l.table.conn)
            → Adopts (state S.Store conn) (state S.Store l.table.conn) l.events) }
        ensures rows { IfOk result (λ l. l.table.rows ≡ length l.events) }
        ensures rejects { IfErr result (λ n.
            Rejects (state S.Store conn) (state S.Store n.conn) n.fault) }
        ensures missing { has_inbox (state S.Store conn).now.schema ≡ false
            → IsErrAnd result (λ n. n.fault ≡ Foreign) }
        ensures both { has_both (state S.Store conn).now.schema ≡ true
            → IsErrAnd result (λ n. n.fault ≡ Foreign) }
        ensures crash { IfOk result (λ l. LeavesUpgrade (state S.Store conn) (state S.Store l.table.conn)) }
        ensures crash_refused { IfErr result (λ n. LeavesUpgrade (state S.Store conn) (state S.Store n.conn)) }
    {
        let mut conn = conn;
        match found_in(alloc, &mut conn, true, &Unwatched) {
            Ok(found) => {
                let Found { rows: _, events } = found;
                let rows = events.len();
                let table = Table { conn, rows, alloc };
                Ok(Loaded { table, events })
            }
            Err(fault) => Err(NotMade { conn, fault }),
        }
    }

    /// As [`Table::adopt_and_load`] of the inbox, without giving the events; those of a table of
    /// version 2 aren't kept in memory.
    #[tactic(auto, using(crate::proofs::TableLemmas::adopted_stands))]
    pub fn adopt(alloc: Global, conn: Connection<S>) -> Result<Table<S>, NotMade<S>>
        ensures adopts { IfOk result (λ t. HasCleanDisk (state S.Store t.conn)
            → (events : List EventValue) × (t.rows ≡ length events)
            × Adopts (state S.Store conn) (state S.Store t.conn) events) }
        ensures rejects { IfErr result (λ n.
            Rejects (state S.Store conn) (state S.Store n.conn) n.fault) }
        ensures missing { has_inbox (state S.Store conn).now.schema ≡ false
            → IsErrAnd result (λ n. n.fault ≡ Foreign) }
        ensures both { has_both (state S.Store conn).now.schema ≡ true
            → IsErrAnd result (λ n. n.fault ≡ Foreign) }
        ensures crash { IfOk result (λ t. LeavesUpgrade (state S.Store conn) (state S.Store t.conn)) }
        ensures crash_refused { IfErr result (λ n. LeavesUpgrade (state S.Store conn) (state S.Store n.conn)) }
    {
        let mut conn = conn;
        match found_in(alloc, &mut conn, false, &Unwatched) {
            Ok(found) => {
                let Found { rows, events: _ } = found;
                Ok(Table { conn, rows, alloc })
            }
            Err(fault) => Err(NotMade { conn, fault }),
        }
    }

    /// Adds in one transaction the events of the batch that aren't there, each in its turn behind
    /// the last, and answers how many. The time grows with the batch, and for each event with the
    /// logarithm of the number of rows.
    ///
    /// `Store` where a transaction is open, where the places would go past 2^63 - 1, or where the
    /// database refuses. Then nothing is added.
    pub fn keep(&mut self, batch: &Batch) -> Result<u64, TableFault>
        ensures call { KeepCall self.old.rows self.new.rows result }
        ensures effect { HasCleanDisk (state S.Store self.new.conn) → KeepEffect batch.now
            (state S.Store self.old.conn) (state S.Store self.new.conn) result }
        ensures crash { Survives (state S.Store self.old.conn) (state S.Store self.new.conn)
            (λ trees. IsTrue (state S.Store self.old.conn).is_open
            → MayTake batch.now (state S.Store self.old.conn).now trees) }
    {
        self.keep_watched(batch, &Unwatched)
    }

    /// As [`Table::keep`] of the inbox; the watch is told after each thousand events how many are
    /// in. The events may be anyone's who lends them: a batch, or the last arrivals of a site.
    pub fn keep_watched<E: Listed, W: Watch>(
        &mut self,
        events: &E,
        watch: &W,
    ) -> Result<u64, TableFault>
        ensures call { KeepCall self.old.rows self.new.rows result }
        ensures effect { HasCleanDisk (state S.Store self.new.conn)
            → KeepEffect (E.listed events.now)
            (state S.Store self.old.conn) (state S.Store self.new.conn) result }
        ensures told { OnOk result (IsTold (W.told watch.now) (length (E.listed events.now))) }
        ensures crash { Survives (state S.Store self.old.conn) (state S.Store self.new.conn)
            (λ trees. IsTrue (state S.Store self.old.conn).is_open
            → MayTake (E.listed events.now) (state S.Store self.old.conn).now trees) }
    {
        if self.rows > MAX_PLACE || events.count() > MAX_PLACE - self.rows {
            return Err(TableFault::Store);
        }
        match keep(self.alloc, &mut self.conn, self.rows, events, watch) {
            Ok(fresh) => {
                self.rows = self.rows + fresh;
                Ok(fresh)
            }
            Err(fault) => Err(fault),
        }
    }

    /// Adds in one transaction the events of the lists that aren't there, one list after the other,
    /// each event in its turn behind the last, and answers of each list how many were not there by
    /// then. The time is that of [`Table::keep`] for all of them.
    ///
    /// It is refused as [`Table::keep`] is, and then nothing of any list is added.
    pub fn keep_each(&mut self, lists: &List<Batch>) -> Result<List<u64>, TableFault>
        ensures call { KeepEachCall self.old.rows self.new.rows result }
        ensures one_each { IfOk result (λ each. length each ≡ length lists.now) }
        ensures effect { HasCleanDisk (state S.Store self.new.conn) → KeepEachEffect lists.now
            (state S.Store self.old.conn) (state S.Store self.new.conn) result }
        ensures crash { Survives (state S.Store self.old.conn) (state S.Store self.new.conn)
            (λ trees. IsTrue (state S.Store self.old.conn).is_open
            → MayTake (joined lists.now) (state S.Store self.old.conn).now trees) }
    {
        let length = length_of(lists);
        if self.rows > MAX_PLACE || length > MAX_PLACE - self.rows {
            return Err(TableFault::Store);
        }
        match keep_lists(self.alloc, &mut self.conn, self.rows, lists) {
            Ok(each) => {
                self.rows = self.rows + total(&each);
                Ok(each)
            }
            Err(fault) => Err(fault),
        }
    }

    /// The events in the order of their places. Time and memory in proportion to them.
    ///
    /// `Store` where a transaction is open or the database refuses. `Foreign`, where the rows
    /// aren't those that the calls leave, comes only if the disk gives back what was not written.
    pub fn load(&mut self) -> Result<Batch, TableFault>
        ensures effect { HasCleanDisk (state S.Store self.new.conn)
            → ReadEffect (λ events. events) self.old.rows
            (state S.Store self.old.conn) (state S.Store self.new.conn) result }
        ensures rows { self.new.rows ≡ self.old.rows }
        ensures crash { Survives
            (state S.Store self.old.conn) (state S.Store self.new.conn) (λ _. ⊥) }
    {
        let found = match listed_in(self.alloc, &mut self.conn, &Each { keeps: true }) {
            Ok(found) => found,
            Err(fault) => return Err(fault),
        };
        Ok(found.events)
    }

    /// The events of this source whose number, divided by 1,024 and rounded down, is k, in the
    /// order of their places. Time in proportion to all events, memory to those that are answered.
    ///
    /// It is refused as [`Table::load`] is.
    pub fn block(&mut self, source: &str, k: u64) -> Result<Batch, TableFault>
        ensures effect { HasCleanDisk (state S.Store self.new.conn)
            → ReadEffect (events_of_block source.now k) self.old.rows
            (state S.Store self.old.conn) (state S.Store self.new.conn) result }
        ensures rows { self.new.rows ≡ self.old.rows }
        ensures crash { Survives
            (state S.Store self.old.conn) (state S.Store self.new.conn) (λ _. ⊥) }
    {
        let wanted = OfBlock { source, block: k };
        let found = match listed_in(self.alloc, &mut self.conn, &wanted) {
            Ok(found) => found,
            Err(fault) => return Err(fault),
        };
        Ok(found.events)
    }

    /// The events of this source and id, in the order of their places; several have different
    /// texts. Time in proportion to those that are answered, and for a search in the index to the
    /// logarithm of the number of rows; memory to those that are answered.
    ///
    /// It is refused as [`Table::load`] is.
    pub fn find(&mut self, source: &str, id: &str) -> Result<Batch, TableFault>
        ensures effect { HasCleanDisk (state S.Store self.new.conn)
            → ReadEffect (events_named source.now id.now) self.old.rows
            (state S.Store self.old.conn) (state S.Store self.new.conn) result }
        ensures was_open { HasCleanDisk (state S.Store self.new.conn)
            → IsTrue (state S.Store self.new.conn).is_open
            → IsTrue (state S.Store self.old.conn).is_open }
        ensures rows { self.new.rows ≡ self.old.rows }
        ensures crash { Survives
            (state S.Store self.old.conn) (state S.Store self.new.conn) (λ _. ⊥) }
    {
        find_named(self.alloc, &mut self.conn, source, id)
    }

    /// The events at the `count` places behind `after`, or those that are there, in the order of
    /// their places, which count from 1. Time in proportion to those that are answered, and for a
    /// search to the logarithm of the number of rows; memory to those that are answered.
    ///
    /// It is refused as [`Table::load`] is.
    pub fn page(&mut self, after: u64, count: u64) -> Result<Batch, TableFault>
        ensures effect { HasCleanDisk (state S.Store self.new.conn)
            → ReadEffect (events_after after count) self.old.rows
            (state S.Store self.old.conn) (state S.Store self.new.conn) result }
        ensures was_open { HasCleanDisk (state S.Store self.new.conn)
            → IsTrue (state S.Store self.new.conn).is_open
            → IsTrue (state S.Store self.old.conn).is_open }
        ensures rows { self.new.rows ≡ self.old.rows }
        ensures crash { Survives
            (state S.Store self.old.conn) (state S.Store self.new.conn) (λ _. ⊥) }
    {
        if self.rows > MAX_PLACE {
            return Err(TableFault::Store);
        }
        let place = after.min(MAX_PLACE);
        let limit = count.min(MAX_PLACE);
        find_after(self.alloc, &mut self.conn, place, limit)
    }

    /// How many events the inbox's table has. Takes no time.
    pub fn rows(&self) -> u64
        ensures rows { result ≡ self.now.rows }
        ensures stands { StandsFor (state S.Store self.now.conn) result }
    {
        self.rows
    }

    /// Gives the connection back, with the inbox's table as it is.
    pub fn into_connection(self) -> Connection<S>
        ensures { result ≡ self.conn }
    {
        let Table {
            conn,
            rows: _,
            alloc: _,
        } = self;
        conn
    }
}
