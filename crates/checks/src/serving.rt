//! Workers side by side over one shared site.

ghost use Rattle.std.specs.Prelude.{◌≡◌, ◌+◌, ◌≤◌, length, IfSome};

use crate::calls::Calls;
use crate::event::{is_text, json_batch};
use crate::shared::begun;
use crate::worker::{fill, report};
use attributes::{List, Octets};
use feeds::{Aside, Idle, Jobs, Questions, ServeFault, Served, WorkerEnd, serve};
use site::{Gate, GateShut, Site, Wide};
use site_lock::{Begun, Pass, SharedSite};
use std::alloc::Global;
use std::sync::Wait;
use std::sync::atomic::{AtomicU64, Ordering};
use std::thread;
use std::thread::Threads;
use views::{Query, print};

/// How often a gate looks before it is shut. Whoever looks lets others run.
const LOOKS: u64 = 1_000_000;

/// It holds workers 0 and 1 up before their first calls until the other of the two has come there,
/// and worker 3 until the aside has had three turns. It notes the calls of the four workers.
#[derive(Drop)]
struct Meeting {
    first: Calls,
    second: Calls,
    third: Calls,
    fourth: Calls,
    // Those of workers that aren't there.
    others: Calls,
    turns: AtomicU64,
}

/// Whether a count comes to a number.
fn comes_to(count: &AtomicU64, number: u64) -> bool {
    comes_within(count, number, LOOKS)
}

/// Whether it does so within so many looks.
fn comes_within(count: &AtomicU64, number: u64, looks: u64) -> bool {
    for _look in 0..looks {
        if count.load(Ordering::SeqCst) >= number {
            return true;
        }
        thread::yield_now();
    }
    false
}

impl Meeting {
    /// Nobody has come.
    fn nobody() -> Meeting {
        Meeting {
            first: Calls::none(),
            second: Calls::none(),
            third: Calls::none(),
            fourth: Calls::none(),
            others: Calls::none(),
            turns: AtomicU64::new(0),
        }
    }

    /// The calls of a worker, or of all that aren't there.
    fn of(&self, worker: u64) -> &Calls {
        match worker {
            0 => &self.first,
            1 => &self.second,
            2 => &self.third,
            3 => &self.fourth,
            _ => &self.others,
        }
    }

    /// Whether those whom a call of a worker waits for have come.
    fn is_met(&self, worker: u64, call: u64) -> bool {
        match worker {
            0 => call != 1 || comes_to(&self.second.asked, 1),
            1 => call != 1 || comes_to(&self.first.asked, 1),
            3 => comes_to(&self.turns, 3),
            _ => true,
        }
    }

    /// Whether the workers made so many calls each, all of them in turn.
    fn has_calls(&self, first: u64, second: u64, third: u64, fourth: u64) -> bool {
        self.others.are(0)
            && self.first.are(first)
            && self.second.are(second)
            && self.third.are(third)
            && self.fourth.are(fourth)
    }
}

impl Gate for Meeting {
    ghost use Rattle.std.specs.Prelude.{⊤};

    ghost lets = { λ _ _ _. ⊤ };

    ghost shuts = { λ _ _ _. ⊤ };

    ghost heard = { λ _ _ _. ⊤ };

    fn before(&self, worker: u64, call: u64) -> Result<(), GateShut> {
        self.of(worker).ask(call);
        if self.is_met(worker, call) {
            Ok(())
        } else {
            Err(GateShut)
        }
    }

    fn after(&self, worker: u64, call: u64) {
        let calls = self.of(worker);
        calls.send();
        calls.tell(call);
    }
}

/// It counts its turns, for the gate too.
#[derive(Drop)]
struct Turning<'a> {
    count: u64,
    turns: &'a AtomicU64,
}

impl<'a> Aside for Turning<'a> {
    ghost use Rattle.std.specs.Prelude.{◌≤◌};
    ghost use Rattle.std.proofs.Common.{arith};

    ghost moves = { λ a b. a.count ≤ b.count };

    ghost stays = { λ a. omega arith };

    ghost goes_on = { λ a b c first then. omega (arith, first, then) };

    fn turn(&mut self) -> bool {
        self.count = self.count.saturating_add(1);
        self.turns.fetch_add(1, Ordering::SeqCst);
        true
    }
}

/// Adds a feed of so many events, and answers whether it did.
fn add_feed(alloc: Global, feeds: &mut List<Octets>, first: u64, count: u64) -> bool {
    match feed_of(alloc, first, count) {
        Some(feed) => feeds.push(feed).is_ok(),
        None => false,
    }
}

/// The bytes of a batch of so many events.
fn feed_of(alloc: Global, first: u64, count: u64) -> Option<Octets> {
    let text = json_batch(alloc, first, count).ok()?;
    Octets::of(alloc, text.as_str().as_bytes()).ok()
}

/// Adds a peer with so many events, and answers whether it did.
fn add_peer(alloc: Global, peers: &mut List<Site>, first: u64, count: u64) -> bool {
    let mut site = Site::empty(alloc);
    if fill(alloc, &mut site, first, count) {
        peers.push(site).is_ok()
    } else {
        false
    }
}

/// Adds a question, and answers whether it did.
fn add_question(alloc: Global, asks: &mut List<Questions>) -> bool {
    let mut questions = List::empty(alloc);
    if questions.push(Query::Cover).is_ok() {
        asks.push(questions).is_ok()
    } else {
        false
    }
}

/// Adds two feeds, of 50 and of 150 events, a peer with three more, and a question; answers whether
/// it did.
fn add_jobs(alloc: Global, jobs: &mut Jobs) -> bool {
    add_feed(alloc, &mut jobs.feeds, 1, 50)
        && add_feed(alloc, &mut jobs.feeds, 51, 150)
        && add_peer(alloc, &mut jobs.peers, 201, 3)
        && add_question(alloc, &mut jobs.asks)
}

/// No jobs.
fn nothing(alloc: Global) -> Jobs
    ensures { length result.feeds + length result.peers + length result.asks ≡ 0 }
{
    Jobs {
        feeds: List::empty(alloc),
        peers: List::empty(alloc),
        asks: List::empty(alloc),
    }
}

/// Whether each worker did what it was to do.
fn is_done(served: &Served) -> bool {
    served.reports.len() == 3
        && served.reports[0] == report(50, 0, 0, WorkerEnd::Done)
        && served.reports[1] == report(150, 0, 0, WorkerEnd::Done)
        && served.reports[2] == report(3, 0, 0, WorkerEnd::Done)
        && served.asked.len() == 1
        && served.asked[0].ended == WorkerEnd::Done
        && served.asked[0].answers.len() == 1
}

/// Which numbers the site has by the pass.
fn covers<R: Wait>(rt: &R, alloc: Global, shared: &SharedSite, pass: &mut Pass, lines: &str) -> bool
    requires { pass.old.table ≡ shared.now }
    ensures { pass.new.table ≡ pass.old.table }
{
    matches!(shared.query(rt, pass, Query::Cover), Ok(it) if is_text(print(alloc, &it), lines))
}

/// Whether workers do their jobs at the same time, while an aside has turns.
fn serves<R: Threads + Wait + Sync>(
    rt: &R,
    alloc: Global,
    shared: &SharedSite,
    pass: &mut Pass,
    gate: &Meeting,
    jobs: Jobs,
) -> bool
    requires own { pass.old.table ≡ shared.now }
    requires few { length jobs.feeds + length jobs.peers + length jobs.asks ≤ 16 }
    ensures { pass.new.table ≡ pass.old.table }
{
    let mut aside = Turning {
        count: 0,
        turns: &gate.turns,
    };
    match serve(rt, alloc, shared, pass, jobs, gate, &mut aside) {
        Ok(served) => is_done(&served) && aside.count >= 3,
        Err(_) => false,
    }
}

/// Two feeds, a peer and a question, if they are all there.
fn four_jobs(alloc: Global) -> Option<Jobs>
    ensures { IfSome result (λ jobs.
        length jobs.feeds + length jobs.peers + length jobs.asks ≤ 16) }
{
    let mut jobs = nothing(alloc);
    if add_jobs(alloc, &mut jobs)
        && jobs.feeds.len() == 2
        && jobs.peers.len() == 1
        && jobs.asks.len() == 1
    {
        Some(jobs)
    } else {
        None
    }
}

/// Whether a gate was asked for all calls, and the site has what they brought.
fn is_all_there<R: Wait>(
    rt: &R,
    alloc: Global,
    shared: &SharedSite,
    pass: &mut Pass,
    gate: &Meeting,
) -> bool
    requires { pass.old.table ≡ shared.now }
    ensures { pass.new.table ≡ pass.old.table }
{
    let lines = "{\"sources\":{\"/orders\":[[1,203]]},\"version\":1}\n";
    // The peer is asked for its summary and for two pages, of which the first is handed over.
    gate.has_calls(1, 2, 4, 1) && shared.turns(pass) == 6 && covers(rt, alloc, shared, pass, lines)
}

/// Whether workers do two feeds, a peer and a question at the same time.
fn serves_four<R: Threads + Wait + Sync>(
    rt: &R,
    alloc: Global,
    shared: &SharedSite,
    pass: &mut Pass,
    gate: &Meeting,
) -> bool
    requires { pass.old.table ≡ shared.now }
    ensures { pass.new.table ≡ pass.old.table }
{
    match four_jobs(alloc) {
        Some(jobs) => serves(rt, alloc, shared, pass, gate, jobs),
        None => false,
    }
}

/// Whether workers over a shared site without events run at the same time.
fn workers_meet<R: Threads + Wait + Sync>(rt: &R, alloc: Global) -> Option<bool> {
    let Begun { shared, mut pass } = begun(alloc)?;
    let gate = Meeting::nobody();
    let are_done = serves_four(rt, alloc, &shared, &mut pass, &gate);
    let is_there = is_all_there(rt, alloc, &shared, &mut pass, &gate);
    Some(are_done & is_there & (shared.close(rt, pass).arrived() == 203))
}

#[test]
fn workers_run_at_the_same_time(rt: HostRuntime) {
    assert!(rt; workers_meet(&rt, rt.alloc()) == Some(true));
}

/// An aside that stops at its third turn.
#[derive(Drop)]
struct Stopping<'a> {
    turns: &'a AtomicU64,
}

impl<'a> Aside for Stopping<'a> {
    ghost use Rattle.std.specs.Prelude.{⊤};

    ghost moves = { λ _ _. ⊤ };

    ghost stays = { λ _. tt };

    ghost goes_on = { λ _ _ _ _ _. tt };

    fn turn(&mut self) -> bool {
        self.turns.fetch_add(1, Ordering::SeqCst) < 2
    }
}

/// It holds workers up until an aside has stopped, and lets the aside's thread run for a while
/// behind that.
#[derive(Drop)]
struct Lingering {
    turns: AtomicU64,
}

impl Gate for Lingering {
    ghost use Rattle.std.specs.Prelude.{⊤};

    ghost lets = { λ _ _ _. ⊤ };

    ghost shuts = { λ _ _ _. ⊤ };

    ghost heard = { λ _ _ _. ⊤ };

    fn before(&self, _worker: u64, _call: u64) -> Result<(), GateShut> {
        if comes_to(&self.turns, 3) && !comes_within(&self.turns, 4, 1_000) {
            Ok(())
        } else {
            Err(GateShut)
        }
    }

    fn after(&self, _worker: u64, _call: u64) {}
}

/// Whether a worker asks its question, while an aside stops and isn't turned again.
fn asks_beside_stopped<R: Threads + Wait + Sync>(rt: &R, alloc: Global) -> Option<bool> {
    let Begun { shared, mut pass } = begun(alloc)?;
    let gate = Lingering {
        turns: AtomicU64::new(0),
    };
    let mut jobs = nothing(alloc);
    if !add_question(alloc, &mut jobs.asks) || jobs.asks.len() != 1 {
        return None;
    }
    let mut aside = Stopping { turns: &gate.turns };
    let served = serve(rt, alloc, &shared, &mut pass, jobs, &gate, &mut aside).ok()?;
    let is_done = served.asked.len() == 1 && served.asked[0].ended == WorkerEnd::Done;
    Some(is_done & (gate.turns.load(Ordering::SeqCst) == 3))
}

#[test]
fn an_aside_that_stopped_is_not_turned_again(rt: HostRuntime) {
    assert!(rt; asks_beside_stopped(&rt, rt.alloc()) == Some(true));
}

/// Whether no jobs over a shared site without events are done at once.
fn is_done_at_once<R: Threads + Wait + Sync>(rt: &R, alloc: Global) -> Option<bool> {
    let Begun { shared, mut pass } = begun(alloc)?;
    match serve(
        rt,
        alloc,
        &shared,
        &mut pass,
        nothing(alloc),
        &Wide,
        &mut Idle,
    ) {
        Ok(served) => Some(served.reports.is_empty() && served.asked.is_empty()),
        Err(_) => None,
    }
}

#[test]
fn no_jobs_are_done_at_once(rt: HostRuntime) {
    assert!(rt; is_done_at_once(&rt, rt.alloc()) == Some(true));
}

#[test]
fn the_faults_of_serve_have_numbers(rt: HostRuntime) {
    assert!(rt; ServeFault::OutOfMemory.number() == 1);
    assert!(rt; ServeFault::NoThread.number() == 2);
}
