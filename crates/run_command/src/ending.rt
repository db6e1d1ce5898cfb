//! A run, from an open database to the printed text.
ghost use Rattle.std.specs.Prelude.{◌≡◌, ◌⊎◌, ◌≤◌, ◌+◌, ℕ, [], length, take, List, Err, IfErr, IfOk, IsOk, None, OnOk};
ghost use Rattle.attributes.specs.Event.{EventValue};
ghost use Rattle.sqlite.specs.Held.{state};
ghost use Rattle.sqlite.specs.State.{HasCleanDisk, Survives};
ghost use Rattle.inbox.specs.KeyOrder.{key_cmp};
ghost use Rattle.inbox.specs.Ordered.{append_new};
ghost use Rattle.inbox_table.specs.Calls.{IsSettled};
ghost use Rattle.keeper.specs.Keep.{Grows, KeepsUp};
ghost use Rattle.run_command.specs.Ending.{KeepsRest, workers_of};
ghost use Rattle.run_command.specs.Fault.{IsRunFault};
ghost use Rattle.run_command.specs.Outcome.{HasRun, MayRun, RunsTo, TellsRun, fault_of_run, reports_if_served};
ghost use Rattle.run_command.specs.Run.{IsFeedFault, IsRun, IsRunText, RunsInto, SaysRun};
ghost use Rattle.run_command.specs.Tally.{read_in, refused_in};
ghost use Rattle.run_command.specs.Through.{DoneThrough, IsToldOfRest};
ghost use Rattle.databases.specs.declared.fault.CommandFault.TheVariants.{OutOfMemory};
ghost use Rattle.run_command.specs.declared.fault.RunFault.TheVariants.{Database};
ghost use Rattle.databases.specs.Done.{SettledIfDone};

use crate::fault::{RunFault, of_keep, of_serve};
use crate::shared::{Closed, share};
use crate::tally::{counts, first_fault};
use crate::text::run_text;
use attributes::{Batch, Text};
use databases::{CommandFault, load_table, of_table};
use feeds::{Jobs, Report, ServeFault, Served};
use inbox_table::{Loaded, NotMade, Table, Watch};
use keeper::{Keeper, Kept, NotKept, Stop};
use site::{Gate, Site};
use sqlite::{Alter, Connection};
use std::alloc::Global;
use std::sync::Wait;
use std::thread::Threads;

/// A run that came to its end.
#[derive(Drop)]
pub struct RunEnd<S: Alter + Drop> {
    /// The connection to the database.
    pub conn: Connection<S>,
    /// The text to print, or why there is none.
    pub outcome: Result<Text, RunFault>,
    /// Why keeping stopped, if it did: the refusal of the keeper beside the workers, or that of the
    /// rest. Then the inbox may lack some of what workers handed over.
    pub stopped: Option<Stop>,
}

/// Takes feeds side by side into the inbox of a database, each in a thread of its own, with the
/// events of the peers, and keeps what came meanwhile, 1,000 events at most to a transaction; what
/// is left in the end is kept in one. Answers how many events the feeds had, how many of them had
/// no number, how many the inbox has now, and its summary. The table is made where there is none.
/// At most 16 jobs; what was asked is not told.
///
/// Of several faults the first is told, in this order: that of the workers as a whole, those of
/// workers in their order, that of keeping beside them, that of keeping the rest. What was taken by
/// then is kept all the same, but after a fault of the workers as a whole or of keeping.
///
/// The gate is asked before each call of a worker, feeds before peers before those who ask, and
/// told after it: it may hold them up, while what they handed over is kept. A worker that it stops
/// ends as one that wants memory.
///
/// The watch is told how many events the table has, of how many that the inbox had or that were
/// handed over; while workers work the latter is some hundred too many.
pub fn run<R: Threads + Wait + Sync, S: Alter + Drop, G: Gate + Sync, W: Watch>(
    rt: &R,
    alloc: Global,
    conn: Connection<S>,
    jobs: Jobs,
    gate: &G,
    watch: &W,
) -> RunEnd<S>
    requires { length jobs.feeds + length jobs.peers + length jobs.asks ≤ 16 }
    ensures left { RunsTo jobs.feeds jobs.peers (state S.Store conn) (state S.Store result.conn)
        result.stopped result.outcome }
    ensures ran { HasCleanDisk (state S.Store result.conn) → IfOk result.outcome (RunsInto
        jobs.feeds jobs.peers (state S.Store conn).now (state S.Store result.conn).now) }
    ensures settled { SettledIfDone (state S.Store result.conn) result.outcome }
    ensures said { IfOk result.outcome (λ text.
        (arrivals : List EventValue) × SaysRun jobs.feeds arrivals text) }
    ensures feed { IfErr result.outcome (IsFeedFault jobs.feeds) }
    ensures database { IfErr result.outcome IsRunFault }
    ensures gated { OnOk result.outcome (DoneThrough (G.lets gate.now) (G.shuts gate.now)
        (G.heard gate.now) jobs.feeds jobs.peers jobs.asks) }
    ensures crash { Survives (state S.Store conn) (state S.Store result.conn)
        (MayRun (state S.Store conn).now) }
{
    match load_table(alloc, conn) {
        Ok(loaded) => {
            let Loaded { table, events } = loaded;
            run_table(rt, alloc, table, events, jobs, gate, watch)
        }
        Err(refused) => {
            let NotMade { conn, fault } = refused;
            unbegun(conn, of_table(fault))
        }
    }
}

/// A run of workers over a table whose events are at hand.
fn run_table<R: Threads + Wait + Sync, S: Alter + Drop, G: Gate + Sync, W: Watch>(
    rt: &R,
    alloc: Global,
    table: Table<S>,
    events: Batch,
    jobs: Jobs,
    gate: &G,
    watch: &W,
) -> RunEnd<S>
    requires first { KeepsUp (state S.Store table.conn) table.rows (append_new key_cmp [] events) }
    requires count { HasCleanDisk (state S.Store table.conn)
        → table.rows ≡ length (append_new key_cmp [] events) }
    requires few { length jobs.feeds + length jobs.peers + length jobs.asks ≤ 16 }
    ensures left { (result ≡ record {
      conn = table.conn;
      outcome = Err (Database OutOfMemory);
      stopped = None;
    }) ⊎ HasRun jobs.feeds jobs.peers (append_new key_cmp [] events)
        (state S.Store result.conn) result.stopped result.outcome }
    ensures ran { HasCleanDisk (state S.Store result.conn) → IfOk result.outcome (IsRun jobs.feeds
        jobs.peers (append_new key_cmp [] events) (state S.Store result.conn).now) }
    ensures settled { SettledIfDone (state S.Store result.conn) result.outcome }
    ensures said { IfOk result.outcome (λ text.
        (arrivals : List EventValue) × SaysRun jobs.feeds arrivals text) }
    ensures feed { IfErr result.outcome (IsFeedFault jobs.feeds) }
    ensures database { IfErr result.outcome IsRunFault }
    ensures gated { OnOk result.outcome (DoneThrough (G.lets gate.now) (G.shuts gate.now)
        (G.heard gate.now) jobs.feeds jobs.peers jobs.asks) }
    ensures grows { Grows (state S.Store table.conn) (state S.Store result.conn) }
{
    let feeds = jobs.feeds.len();
    match Keeper::of_loaded(alloc, table, events) {
        Ok(kept) => {
            let Kept { keeper, site } = kept;
            match share(rt, alloc, keeper, site, jobs, gate, watch) {
                Ok(closed) => ended(alloc, closed, feeds, watch),
                Err(keeper) => unbegun(
                    keeper.into_table().into_connection(),
                    CommandFault::OutOfMemory,
                ),
            }
        }
        Err(refused) => {
            let NotKept { table, fault: _ } = refused;
            unbegun(table.into_connection(), CommandFault::OutOfMemory)
        }
    }
}

/// A run of files side by side that wasn't begun.
fn unbegun<S: Alter + Drop>(conn: Connection<S>, why: CommandFault) -> RunEnd<S>
    ensures { result ≡ record { conn = conn; outcome = Err (Database why); stopped = None } }
{
    RunEnd {
        conn,
        outcome: Err(RunFault::Database(why)),
        stopped: None,
    }
}

/// The end of a run of files side by side whose workers have ended, so many of which were feeds.
fn ended<S: Alter + Drop, W: Watch>(
    alloc: Global,
    closed: Closed<S>,
    feeds: u64,
    watch: &W,
) -> RunEnd<S>
    requires { KeepsUp (state S.Store closed.keeper.conn) closed.keeper.rows closed.site }
    ensures kept { (rows : ℕ) × KeepsRest (λ conn. state S.Store conn) closed.keeper
        record { conn = result.conn; rows = rows } closed.site closed.served closed.stopped
        result.stopped }
    ensures told { TellsRun feeds (reports_if_served (workers_of closed.served)) closed.site
        (fault_of_run feeds (workers_of closed.served) result.stopped) result.outcome }
    ensures watched { IsOk closed.served → closed.stopped ≡ None → result.stopped ≡ None
        → IsToldOfRest (W.told watch.now) closed.keeper.rows (length closed.site) }
{
    let Closed {
        mut keeper,
        site,
        served,
        stopped,
    } = closed;
    let stopped = keep_rest(&mut keeper, &site, &served, stopped, watch);
    let outcome = outcome_of(alloc, &site, &served, &stopped, feeds);
    RunEnd {
        conn: keeper.into_table().into_connection(),
        outcome,
        stopped,
    }
}

/// Keeps what a run has left, where workers reported and keeping beside them didn't stop. The
/// answer is why keeping stopped, if it did.
fn keep_rest<S: Alter + Drop, W: Watch>(
    keeper: &mut Keeper<S>,
    site: &Site,
    served: &Result<Served, ServeFault>,
    stopped: Option<Stop>,
    watch: &W,
) -> Option<Stop>
    requires { KeepsUp (state S.Store keeper.old.conn) keeper.old.rows site.now }
    ensures rest { KeepsRest (λ conn. state S.Store conn) keeper.old keeper.new site.now served.now
        stopped result }
    ensures watched { IsOk served.now → stopped ≡ None → result ≡ None
        → IsToldOfRest (W.told watch.now) keeper.old.rows (length site.now) }
{
    if served.is_err() {
        return stopped;
    }
    if stopped.is_some() {
        return stopped;
    }
    match keeper.catch_up(site, watch) {
        Ok(()) => None,
        Err(stop) => Some(stop),
    }
}

/// The outcome of a run: the first fault, or else the text.
fn outcome_of(
    alloc: Global,
    site: &Site,
    served: &Result<Served, ServeFault>,
    stopped: &Option<Stop>,
    feeds: u64,
) -> Result<Text, RunFault>
    ensures { TellsRun feeds (reports_if_served (workers_of served.now)) site.now
        (fault_of_run feeds (workers_of served.now) stopped.now) result }
{
    let reports = match served {
        Ok(served) => served.reports.as_slice(),
        Err(fault) => return Err(of_serve(*fault)),
    };
    if let Some(fault) = first_fault(reports, feeds) {
        return Err(fault);
    }
    if let Some(stop) = stopped {
        return Err(of_keep(*stop));
    }
    said(alloc, reports, feeds, site)
}

/// The first so many reports of a run's workers.
fn front(reports: &[Report], feeds: u64) -> &[Report]
    ensures { result.now ≡ take feeds reports.now }
{
    let count = (feeds as usize).min(reports.len());
    &reports[..count]
}

/// The text of a run without a fault.
fn said(alloc: Global, reports: &[Report], feeds: u64, site: &Site) -> Result<Text, RunFault>
    ensures ok { IfOk result (IsRunText (read_in (take feeds reports.now))
        (refused_in (take feeds reports.now)) site.now) }
    ensures err { IfErr result (λ why. why ≡ Database OutOfMemory) }
{
    let (read, refused) = counts(front(reports, feeds));
    match run_text(alloc, read, refused, site) {
        Ok(text) => Ok(text),
        Err(_) => Err(RunFault::Database(CommandFault::OutOfMemory)),
    }
}
