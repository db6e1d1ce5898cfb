//! The site, its table, and what is kept and not yet counted.
ghost use Rattle.std.specs.Prelude.{◌≡◌, ◌≢◌, [], ⊤, IfErr, IfOk, IsTrue, OnErr, OnOk};
ghost use Rattle.sqlite.specs.Held.{state};
ghost use Rattle.sqlite.specs.State.{HasCleanDisk, Survives};
ghost use Rattle.inbox.specs.KeyOrder.{key_cmp};
ghost use Rattle.inbox.specs.Ordered.{append_new};
ghost use Rattle.inbox_table.specs.Calls.{MayTake, joined};
ghost use Rattle.inbox_table.specs.Opening.{LeavesOpening, Opens, RejectsOpening};

use crate::owed::Owed;
use attributes::{Batch, List};
use inbox_table::{Loaded, NotMade, Table, TableFault, Unwatched};
use site::Site;
use sqlite::{Alter, Connection};
use std::alloc::{AllocError, Global};

/// A site over its table. The table has every event that was taken; the site has those but for what
/// is owed to it, since memory ran out when they were to be counted.
#[derive(Drop)]
pub struct DurableSite<S: Alter> {
    pub table: Table<S>,
    pub site: Site,
    pub owed: Owed,
    pub alloc: Global,
}

impl<S: Alter + Drop> DurableSite<S> {
    ghost use Rattle.durable_site.specs.Durable.{CatchesUp, IsTableOf, TakeEachEffect, TakeEffectOfFile, TakesBehind, TakesEach, events_of};

    /// Opens the table of a database, as [`Table::open_and_load`] does, and counts its events. Time
    /// and memory in proportion to them.
    ///
    /// It is refused as that call is. Where memory for the site runs out, the rest is owed.
    pub fn open(alloc: Global, conn: Connection<S>) -> Result<DurableSite<S>, NotMade<S>>
        ensures opens { IfOk result (λ d. HasCleanDisk (state S.Store d.table.conn)
            → Opens (λ _ _. ⊤) (state S.Store conn) (state S.Store d.table.conn)
            (events_of d)) }
        ensures rejects { IfErr result (λ n.
            RejectsOpening (state S.Store conn) (state S.Store n.conn) n.fault) }
        ensures crash { IfOk result (λ d. LeavesOpening (state S.Store conn) (state S.Store d.table.conn)) }
        ensures crash_refused { IfErr result (λ n. LeavesOpening (state S.Store conn) (state S.Store n.conn)) }
    {
        let loaded = match Table::open_and_load(alloc, conn, &Unwatched) {
            Ok(loaded) => loaded,
            Err(refused) => return Err(refused),
        };
        let Loaded { table, events } = loaded;
        let mut site = Site::empty(alloc);
        let mut owed = Owed::of(alloc, events);
        let _counted = owed.count_to(&mut site);
        Ok(DurableSite {
            table,
            site,
            owed,
            alloc,
        })
    }

    /// Counts what a site is owed. An error where memory runs out again; what was counted stays.
    pub fn catch_up(&mut self) -> Result<(), AllocError>
        ensures counts { CatchesUp self.old self.new result }
        ensures table { self.new.table ≡ self.old.table }
    {
        self.owed.count_to(&mut self.site)
    }

    /// Takes the events of a batch: they are kept in the table, in one transaction that is synced,
    /// and then counted. It answers how many were not there. Time as that of [`Table::keep`] and of
    /// [`Site::take_batch`].
    ///
    /// Refused as `keep` is, or for want of memory where something is owed; then nothing is taken.
    /// Where memory runs out once they are kept, the rest is owed, and the answer is as before.
    pub fn take(&mut self, batch: Batch) -> Result<u64, TableFault>
        ensures takes { TakesBehind batch (events_of self.old) (events_of self.new) result }
        ensures effect { HasCleanDisk (state S.Store self.new.table.conn)
            → TakeEffectOfFile batch (events_of self.old) (events_of self.new)
            (state S.Store self.old.table.conn) (state S.Store self.new.table.conn) result }
        ensures crash { Survives
            (state S.Store self.old.table.conn) (state S.Store self.new.table.conn)
            (λ trees. IsTrue (state S.Store self.old.table.conn).is_open
            → MayTake batch (state S.Store self.old.table.conn).now trees) }
    {
        self.catch_up()?;
        let fresh = self.table.keep(&batch)?;
        self.owed = Owed::of(self.alloc, batch);
        let _counted = self.owed.count_to(&mut self.site);
        Ok(fresh)
    }

    /// Takes the events of several batches, one behind the other, as [`DurableSite::take`] does
    /// those of one: all of them in one transaction. It answers of each batch how many were not
    /// there by then. Time as that of [`Table::keep_each`] and of [`Site::take_batch`].
    ///
    /// Refused as `take` is, and then nothing of any batch is taken.
    pub fn take_each(&mut self, lists: List<Batch>) -> Result<List<u64>, TableFault>
        ensures takes { TakesEach lists (events_of self.old) (events_of self.new) result }
        ensures effect { HasCleanDisk (state S.Store self.new.table.conn)
            → TakeEachEffect lists (events_of self.old) (events_of self.new)
            (state S.Store self.old.table.conn) (state S.Store self.new.table.conn) result }
        ensures crash { Survives
            (state S.Store self.old.table.conn) (state S.Store self.new.table.conn)
            (λ trees. IsTrue (state S.Store self.old.table.conn).is_open
            → MayTake (joined lists) (state S.Store self.old.table.conn).now trees) }
    {
        self.catch_up()?;
        let each = self.table.keep_each(&lists)?;
        self.owed = Owed::of_each(self.alloc, lists);
        let _counted = self.owed.count_to(&mut self.site);
        Ok(each)
    }
}
