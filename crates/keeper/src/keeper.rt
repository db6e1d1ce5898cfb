//! A table that keeps up with a shared site.

ghost use Rattle.std.specs.Prelude.{◌≡◌, ◌≢◌, ◌+◌, ◌-◌, ◌*◌, ◌^◌, ◌≤◌, [], true, drop, length, min, List, IsErrOf, IsTrue, IfErr, IfOk, OnOk};
ghost use Rattle.sqlite.specs.Held.{state};
ghost use Rattle.sqlite.specs.State.{HasCleanDisk, Survives};
ghost use Rattle.attributes.specs.Event.{EventValue};
ghost use Rattle.inbox.specs.KeyOrder.{key_cmp};
ghost use Rattle.inbox.specs.Ordered.{append_new};
ghost use Rattle.site.specs.Arrival.{AreDistinct};
ghost use Rattle.inbox_table.specs.Calls.{IsSettled, IsTold, StandsFor};
ghost use Rattle.inbox_table.specs.Rows.{IsInbox};
ghost use Rattle.site_lock.specs.Pass.{leaves};
ghost use Rattle.keeper.specs.Keep.{AsksFresh, AsksPages, EndsShort, HasAll, Keeps, KeepsPages, KeepsUp, MayKeepAll, max_page};
ghost use Rattle.keeper.specs.declared.fault.KeepFault.TheVariants.{Foreign, OutOfMemory};

use crate::fault::{KeepFault, Stop};
use crate::gathered::gathered;
use attributes::{Batch, Sequenced};
use inbox_table::{Listed, Table, Watch};
use site::Site;
use site_lock::{Pass, SharedSite};
use sqlite::Alter;
use std::alloc::Global;
use std::marker::Model;
use std::sync::Wait;

/// A table that is kept up with a shared site. Contracts see it as its table: the connection, and
/// the number of its events, which is the keeper's mark.
#[derive(Drop)]
pub struct Keeper<S: Alter> {
    table: Table<S>,
}

/// The arrivals of a site behind the first n.
#[derive(Drop)]
struct Rest<'a> {
    site: &'a Site,
    n: u64,
}

impl<'a> Listed for Rest<'a> {
    ghost listed = { λ rest. drop rest.n rest.site.now };

    fn count(&self) -> u64 {
        self.site.arrived().saturating_sub(self.n)
    }

    fn lent(&self, i: u64) -> &Sequenced {
        // The count bounds the sum below.
        let _arrived = self.site.arrived();
        self.site.arrived_at(self.n + i)
    }
}

/// The arrivals of a site behind the first n, lent to its keeper. Takes no memory.
fn rest_of<'a>(site: &'a Site, n: u64) -> Rest<'a>
    ensures rest { drop result.n result.site.now ≡ drop n site.now }
    ensures once { AreDistinct site.now }
{
    // To count them tells that they are distinct.
    let _arrived = site.arrived();
    Rest { site, n }
}

/// Counts what is kept behind so many events.
#[derive(Drop)]
struct OffsetWatch<'a, W> {
    watch: &'a W,
    before: u64,
}

impl<'a, W: Watch> Watch for OffsetWatch<'a, W> {
    // What it is told, the other is told of so many more, up to 2^64 - 1.
    ghost told = { λ behind count all. W.told behind.watch.now
        (min (behind.before + count) (2 ^ 64 - 1)) (min (behind.before + all) (2 ^ 64 - 1)) };

    fn kept(&self, count: u64, all: u64) {
        self.watch.kept(
            self.before.saturating_add(count),
            self.before.saturating_add(all),
        );
    }
}

/// A keeper, and a site with the events of its table.
#[derive(Drop)]
pub struct Kept<S: Alter> {
    pub keeper: Keeper<S>,
    pub site: Site,
}

/// A table of which no keeper was made, and why.
#[derive(Drop)]
pub struct NotKept<S: Alter> {
    pub table: Table<S>,
    pub fault: KeepFault,
}

impl<S: Alter> Model for Keeper<S> {
    ghost use Rattle.inbox_table.specs.Calls.{KeptTable};
    ghost use Rattle.inbox_table.specs.Codes.{kept_table_code};

    ghost Value = { KeptTable S };

    ghost coded = { kept_table_code S.code };

    ghost view = { λ k. k.table };
}

impl<S: Alter + Drop> Keeper<S> {
    /// Loads the table into a site. Time and memory in proportion to the events.
    ///
    /// `Store` where a transaction is open or the database refuses. The table comes back, and
    /// nothing is changed.
    pub fn begin(alloc: Global, table: Table<S>) -> Result<Kept<S>, NotKept<S>>
        ensures loaded { IfOk result (λ k. HasCleanDisk (state S.Store k.keeper.conn)
            → IsInbox (state S.Store table.conn).now k.site) }
        ensures exact { IfOk result (λ k. HasCleanDisk (state S.Store k.keeper.conn)
            → (held : List EventValue) → IsInbox (state S.Store table.conn).now held
            → k.site ≡ held) }
        ensures first { IfOk result (λ k.
            KeepsUp (state S.Store k.keeper.conn) k.keeper.rows k.site) }
        ensures count { IfOk result (λ k. HasCleanDisk (state S.Store k.keeper.conn)
            → IsTrue (state S.Store k.keeper.conn).is_open → k.keeper.rows ≡ length k.site) }
        ensures rows { IfOk result (λ k. k.keeper.rows ≡ table.rows) }
        ensures unchanged { IfOk result (λ k. HasCleanDisk (state S.Store k.keeper.conn)
            → IsTrue (state S.Store k.keeper.conn).is_open
            → (state S.Store k.keeper.conn).now ≡ (state S.Store table.conn).now) }
        ensures known { IfErr result (λ n. HasCleanDisk (state S.Store n.table.conn)
            → IsTrue (state S.Store n.table.conn).is_open → n.fault ≢ Foreign) }
        ensures rows_same { IfErr result (λ n. n.table.rows ≡ table.rows) }
        ensures same { IfErr result (λ n. HasCleanDisk (state S.Store n.table.conn)
            → IsTrue (state S.Store n.table.conn).is_open
            → (state S.Store n.table.conn).now ≡ (state S.Store table.conn).now) }
        ensures settled { IfOk result (λ k. HasCleanDisk (state S.Store k.keeper.conn)
            → IsSettled (state S.Store k.keeper.conn)) }
        ensures crash { IfOk result (λ k.
            Survives (state S.Store table.conn) (state S.Store k.keeper.conn) (λ _. ⊥)) }
        ensures crash_refused { IfErr result (λ n.
            Survives (state S.Store table.conn) (state S.Store n.table.conn) (λ _. ⊥)) }
    {
        let mut table = table;
        match table.load() {
            Ok(events) => Keeper::of_loaded(alloc, table, events),
            Err(fault) => Err(NotKept {
                table,
                fault: KeepFault::from(fault),
            }),
        }
    }

    /// A keeper of a table whose events are at hand, as [`Table::adopt_and_load`] gives them, so
    /// that its rows aren't read twice. Time and memory in proportion to the events.
    ///
    /// The table comes back after want of memory.
    pub fn of_loaded(alloc: Global, table: Table<S>, events: Batch) -> Result<Kept<S>, NotKept<S>>
        ensures site { IfOk result (λ k. k.site ≡ append_new key_cmp [] events) }
        ensures keeper { IfOk result (λ k. k.keeper ≡ table) }
        ensures back { IfErr result (λ n. n.table ≡ table) }
        ensures fault { IfErr result (λ n. n.fault ≡ OutOfMemory) }
    {
        let mut events = events;
        let mut site = Site::empty(alloc);
        match site.take_batch(&mut events) {
            Ok(_) => Ok(Kept {
                keeper: Keeper { table },
                site,
            }),
            Err(_) => Err(NotKept {
                table,
                fault: KeepFault::OutOfMemory,
            }),
        }
    }

    /// Waits for a turn, takes the events that came to the site after the mark, 100 of them at
    /// most, and keeps them in one transaction; then the mark rises. Answers how many they are.
    ///
    /// The table has the first arrivals after what the pass has seen; so it is once the keeper's
    /// site began the shared one, and for each pass that met the last step's. A refusal leaves the
    /// mark.
    pub fn step<R: Wait>(
        &mut self,
        rt: &R,
        shared: &SharedSite,
        pass: &mut Pass,
    ) -> Result<u64, KeepFault>
        requires own { pass.old.table ≡ shared.now }
        requires first { KeepsUp (state S.Store self.old.conn) self.old.rows (leaves pass.old) }
        ensures asked { AsksFresh self.old.rows pass.old pass.new }
        ensures keeps { KeepsPages (λ conn. state S.Store conn) max_page self.old self.new
            (leaves pass.new) result }

        // Where the site had no memory for a page nothing was kept, and that is told.
        ensures refused { EndsShort pass.new
            → (self.new ≡ self.old) × IsErrOf result OutOfMemory }
    {
        self.steps(rt, shared, pass, 1)
    }

    /// What so many steps take, kept in one transaction: it waits for a turn for each hundred events
    /// that came to the site after the mark, so many hundreds at most. Answers how many they are.
    ///
    /// The table has the first arrivals after what the pass has seen, as for a step. A refusal, also
    /// of memory for the last of them, leaves the mark. Memory for the events that are kept, until
    /// they are.
    pub fn steps<R: Wait>(
        &mut self,
        rt: &R,
        shared: &SharedSite,
        pass: &mut Pass,
        pages: u64,
    ) -> Result<u64, KeepFault>
        requires own { pass.old.table ≡ shared.now }
        requires first { KeepsUp (state S.Store self.old.conn) self.old.rows (leaves pass.old) }
        requires some { 1 ≤ pages }
        ensures asked { AsksPages pages self.old.rows pass.old pass.new }
        ensures keeps { KeepsPages (λ conn. state S.Store conn) (max_page * pages) self.old self.new
            (leaves pass.new) result }

        // Where the site had no memory for a page nothing was kept, and that is told.
        ensures refused { EndsShort pass.new
            → (self.new ≡ self.old) × IsErrOf result OutOfMemory }
    {
        let mark = self.table.rows();
        match gathered(rt, shared, pass, mark, pages) {
            Ok(events) => match self.table.keep(&events) {
                Ok(fresh) => Ok(fresh),
                Err(fault) => Err(KeepFault::from(fault)),
            },
            Err(want) => Err(KeepFault::from(want)),
        }
    }

    /// Keeps, in one transaction, all arrivals of a site of one's own that the table doesn't have
    /// yet; then the mark is their number. The table has the first arrivals of that site. For a
    /// site that was shared and is closed: no turn is needed any more.
    ///
    /// A refusal leaves the mark. Time in proportion to what is kept; no event is copied. The watch is
    /// told from time to time how many of the site's arrivals the table has.
    pub fn catch_up<W: Watch>(&mut self, site: &Site, watch: &W) -> Result<(), Stop>
        requires { KeepsUp (state S.Store self.old.conn) self.old.rows site.now }
        ensures all { HasCleanDisk (state S.Store self.new.conn)
            → OnOk result (HasAll (state S.Store self.new.conn) self.new.rows site.now) }
        ensures keeps { Keeps (λ conn. state S.Store conn) self.old self.new result }
        ensures crash { Survives (state S.Store self.old.conn) (state S.Store self.new.conn)
            (λ trees. IsTrue (state S.Store self.old.conn).is_open
            → MayKeepAll site.now (state S.Store self.old.conn).now trees) }
        ensures told { OnOk result (IsTold (λ count all. W.told watch.now
            (min (self.old.rows + count) (2 ^ 64 - 1)) (min (self.old.rows + all) (2 ^ 64 - 1)))
            (length site.now - self.old.rows)) }
    {
        let before = self.table.rows();
        let rest = rest_of(site, before);
        let _fresh = match self
            .table
            .keep_watched(&rest, &OffsetWatch { watch, before })
        {
            Ok(fresh) => fresh,
            Err(fault) => return Err(Stop::of(KeepFault::from(fault))),
        };
        Ok(())
    }

    /// The keeper's mark: how many first arrivals of the site the table has. Takes no time.
    pub fn kept(&self) -> u64
        ensures mark { result ≡ self.now.rows }
        ensures stands { StandsFor (state S.Store self.now.conn) result }
    {
        self.table.rows()
    }

    /// Whether the keeper has the first n arrivals of the site in its table.
    pub fn acknowledged(&self, n: u64) -> bool
        ensures yes { n ≤ self.now.rows → result ≡ true }
        ensures no { result ≡ true → n ≤ self.now.rows }
    {
        n <= self.table.rows()
    }

    /// Gives the keeper's table back, as it is.
    pub fn into_table(self) -> Table<S>
        ensures { result ≡ self }
    {
        let Keeper { table } = self;
        table
    }
}
