//! The site of a database, shared while files are taken.
ghost use Rattle.std.specs.Prelude.{◌≡◌, ◌≤◌, ◌+◌, IfErr, IfOk, length};
ghost use Rattle.sqlite.specs.Held.{state};
ghost use Rattle.keeper.specs.Keep.{KeepsUp};
ghost use Rattle.run_command.specs.Shared.{IsClosed};
ghost use Rattle.run_command.specs.Through.{ServesThrough};

use crate::progress::{Counting, WatchedFlusher};
use feeds::{Jobs, ServeFault, Served, serve};
use inbox::laws::sets_are_members;
use inbox_table::Watch;
use keeper::laws::first_arrivals_stay;
use keeper::{Flushed, Flusher, Keeper, Stop};
use site::{Gate, Site};
use site_lock::{Begun, SharedSite};
use sqlite::Alter;
use std::alloc::Global;
use std::sync::Wait;
use std::sync::atomic::AtomicU64;
use std::thread::Threads;

/// What is left where workers have ended: the keeper, the site that was shared, what they reported,
/// and why the keeper stopped, if it did.
#[derive(Drop)]
pub struct Closed<S: Alter + Drop> {
    pub keeper: Keeper<S>,
    pub site: Site,
    pub served: Result<Served, ServeFault>,
    pub stopped: Option<Stop>,
}

/// Shares a site for as long as jobs of a run are done for it, each in a thread of its own, and
/// keeps what came meanwhile. For want of memory the keeper comes back as it was. The gate is asked
/// before each call of a worker and told after it, and the watch is told how far it came.
pub fn share<R: Threads + Wait + Sync, S: Alter + Drop, G: Gate + Sync, W: Watch>(
    rt: &R,
    alloc: Global,
    keeper: Keeper<S>,
    site: Site,
    jobs: Jobs,
    gate: &G,
    watch: &W,
) -> Result<Closed<S>, Keeper<S>>
    requires first { KeepsUp (state S.Store keeper.conn) keeper.rows site }
    requires few { length jobs.feeds + length jobs.peers + length jobs.asks ≤ 16 }
    ensures ok { IfOk result (λ c.
        IsClosed (λ conn. state S.Store conn) keeper site jobs.feeds jobs.peers
        c.keeper c.site c.served c.stopped) }
    ensures gated { IfOk result (λ c. IfOk c.served (ServesThrough (G.lets gate.now)
        (G.shuts gate.now) (G.heard gate.now) jobs.feeds jobs.peers jobs.asks)) }
    ensures err { IfErr result (λ back. back ≡ keeper) }
{
    first_arrivals_stay();
    sets_are_members();
    let Begun { shared, mut pass } = match SharedSite::begin(alloc, site) {
        Ok(begun) => begun,
        Err(_) => return Err(keeper),
    };
    let Ok(own) = shared.split(&mut pass) else {
        unreachable!()
    };
    let flusher = Flusher::of(rt, &shared, keeper, own);
    let before = flusher.kept();
    let calls = AtomicU64::new(0);
    let counting = Counting {
        gate,
        calls: &calls,
    };
    let mut told = WatchedFlusher {
        flusher,
        calls: &calls,
        watch,
        before,
    };
    let served = serve(rt, alloc, &shared, &mut pass, jobs, &counting, &mut told);
    let WatchedFlusher {
        flusher,
        calls: _,
        watch: _,
        before: _,
    } = told;
    let Flushed {
        keeper,
        pass: mut own,
        fault: stopped,
    } = flusher.end();
    let Ok(()) = shared.meet(&mut pass, &mut own) else {
        unreachable!()
    };
    pass.stands();
    let site = shared.close(rt, pass);
    Ok(Closed {
        keeper,
        site,
        served,
        stopped,
    })
}
