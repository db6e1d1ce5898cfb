//! Workers over one shared site, each in a thread of its own.

mod close;
mod threads;
mod worker;

ghost use Rattle.std.specs.Prelude.{◌≡◌, ◌≤◌, ◌+◌, length, IfErr, IfOk};
ghost use Rattle.turn_lock.specs.History.{StartsWith};
ghost use Rattle.site_lock.specs.Pass.{IsSamePass};
ghost use Rattle.feeds.specs.Serve.{ServesJobs, fault_number};
ghost use Rattle.feeds.specs.declared.serving.ServeFault.TheVariants.{OutOfMemory};

use crate::aside::Aside;
use crate::asking::Asked;
use crate::report::Report;
use attributes::{List, Octets};
use close::close_all;
use site::{Gate, Site};
use site_lock::{Pass, SharedSite};
use std::alloc::Global;
use std::sync::Wait;
use std::sync::atomic::AtomicU64;
use std::thread::Threads;
use thiserror::Error;
use threads::{run_beside, stay};
use views::Query;
use worker::{Pending, split_all};

/// Questions of one worker, in their order.
pub type Questions = List<Query>;

/// What workers are to do, each job by a worker of its own. Workers count from 0 over the feeds,
/// then the peers, then the asks.
#[derive(Drop)]
pub struct Jobs {
    /// Bytes whose events are brought to the site, as by `feed`.
    pub feeds: List<Octets>,
    /// Sites whose events are brought, as by `pull_from`. Each belongs to its worker, and is gone
    /// at the end.
    pub peers: List<Site>,
    /// Questions that the site is asked, as by `ask`.
    pub asks: List<Questions>,
}

/// What came of jobs, in their order: a report for each feed and then for each peer, and what each
/// ask was answered.
#[derive(Drop)]
pub struct Served {
    pub reports: Vec<Report>,
    pub asked: Vec<Asked>,
}

/// Why nothing is told of jobs. It prints as its name.
#[derive(Clone, Copy, PartialEq, Eq, Debug, Drop, Error)]
pub enum ServeFault {
    /// Memory was refused before anything was done.
    #[error("OutOfMemory")]
    OutOfMemory,
    /// A thread couldn't be started. Those that were have ended, and what they took stays taken.
    #[error("NoThread")]
    NoThread,
}

impl ServeFault {
    /// The number that the fault of the workers' start is known by, 1 or 2.
    pub fn number(self) -> u8
        ensures { result ≡ fault_number self }
    {
        match self {
            ServeFault::OutOfMemory => 1,
            ServeFault::NoThread => 2,
        }
    }
}

/// Does all jobs at the same time, each in a thread of its own and with a pass that is split off
/// this one, and turns the aside in the caller's thread until they have ended. Then the pass has
/// seen all that they did, and the reports tell of it. At most 16 jobs.
///
/// `OutOfMemory` comes before anything was done; where a worker wants memory its report says so.
/// `NoThread` comes after the threads that were started have ended, and their reports are lost. It
/// may wait for as long as other passes' turns, the gate and the aside do.
///
/// Costs what the jobs cost, and memory for the lists of the result; nothing is copied.
pub fn serve<R: Threads + Wait + Sync, G: Gate + Sync, A: Aside>(
    rt: &R,
    alloc: Global,
    shared: &SharedSite,
    pass: &mut Pass,
    jobs: Jobs,
    gate: &G,
    aside: &mut A,
) -> Result<Served, ServeFault>
    requires own { pass.old.table ≡ shared.now }
    requires few { length jobs.feeds + length jobs.peers + length jobs.asks ≤ 16 }
    ensures same { IsSamePass pass.old pass.new × (pass.new.mine ≡ pass.old.mine) }
    ensures seen { StartsWith pass.new.seen pass.old.seen }
    ensures splits { (pass.old.splits ≤ pass.new.splits) × (pass.new.splits
        ≤ pass.old.splits + (length jobs.feeds + length jobs.peers + length jobs.asks)) }
    ensures served { IfOk result (λ s.
        ServesJobs (G.lets gate.now) (G.shuts gate.now) (G.heard gate.now) pass.old pass.new
        jobs.feeds jobs.peers jobs.asks s) }
    ensures aside { A.moves aside.old aside.new }
    ensures refused { IfErr result (λ _. pass.new.seen ≡ pass.old.seen) }
    ensures not_begun { IfErr result (λ fault. fault ≡ OutOfMemory
        → (pass.new ≡ pass.old) × (aside.new ≡ aside.old)) }
{
    let count = jobs.feeds.len() + jobs.peers.len() + jobs.asks.len();
    // What needs memory comes first, so that nothing that was taken goes unreported.
    let Ok(room) = Vec::with_capacity(alloc, count as usize) else {
        stay(aside);
        return Err(ServeFault::OutOfMemory);
    };
    let Ok(back) = Vec::with_capacity(alloc, count as usize) else {
        stay(aside);
        return Err(ServeFault::OutOfMemory);
    };
    let Ok(reports) = Vec::with_capacity(alloc, count as usize) else {
        stay(aside);
        return Err(ServeFault::OutOfMemory);
    };
    let Ok(asked) = Vec::with_capacity(alloc, count as usize) else {
        stay(aside);
        return Err(ServeFault::OutOfMemory);
    };
    let left = AtomicU64::new(count);
    let jobs = split_all(shared, pass, Pending::of(jobs), room);
    match run_beside(rt, alloc, shared, gate, jobs, back, &left, aside) {
        Some(all) => Ok(close_all(shared, pass, all, Served { reports, asked })),
        None => Err(ServeFault::NoThread),
    }
}
