//! A worker's gate and its desks by one clock: the gate is asked once before each call of a desk,
//! and told once behind it.

use crate::event::json_batch;
use crate::worker::{fill, report};
use attributes::Batch;
use coverage::Summary;
use feeds::{Report, WorkerEnd, ask, feed, pull};
use inbox::Counts;
use site::{Desk, DeskFault, Gate, GateShut, Site};
use std::alloc::Global;
use std::sync::atomic::{AtomicU64, Ordering};
use views::{Answer, Query};

/// Nothing is asked for.
const IDLE: u64 = 0;
/// The gate let a call through that wasn't made yet.
const LET: u64 = 1;
/// A desk was called, and the gate isn't told yet.
const CALLED: u64 = 2;

/// A gate that lets the first calls of worker 7 through. It knows where the worker is, how many of
/// its calls it was told of, and how often anything came out of turn.
#[derive(Drop)]
struct Clock {
    most: u64,
    stage: AtomicU64,
    told: AtomicU64,
    wrong: AtomicU64,
}

impl Clock {
    /// Before the first call, of which there are so many at most.
    fn before_all(most: u64) -> Clock {
        Clock {
            most,
            stage: AtomicU64::new(IDLE),
            told: AtomicU64::new(0),
            wrong: AtomicU64::new(0),
        }
    }

    /// Goes from one stage to the next one, and counts it where the worker was at another.
    fn go(&self, from: u64, to: u64) {
        if self.stage.swap(to, Ordering::SeqCst) != from {
            self.wrong.fetch_add(1, Ordering::SeqCst);
        }
    }

    /// Counts it where a call isn't the one behind those that were told.
    fn expect(&self, worker: u64, call: u64) {
        let next = self.told.load(Ordering::SeqCst).wrapping_add(1);
        if worker != 7 || call != next {
            self.wrong.fetch_add(1, Ordering::SeqCst);
        }
    }

    /// Whether so many calls were made, each in its turn, and no other is on its way.
    fn has_told(&self, calls: u64) -> bool {
        self.stage.load(Ordering::SeqCst) == IDLE
            && self.wrong.load(Ordering::SeqCst) == 0
            && self.told.load(Ordering::SeqCst) == calls
    }
}

impl Gate for Clock {
    ghost use Rattle.std.specs.Prelude.{⊤};

    ghost lets = { λ _ _ _. ⊤ };

    ghost shuts = { λ _ _ _. ⊤ };

    ghost heard = { λ _ _ _. ⊤ };

    fn before(&self, worker: u64, call: u64) -> Result<(), GateShut> {
        self.expect(worker, call);
        if call > self.most {
            self.go(IDLE, IDLE);
            return Err(GateShut);
        }
        self.go(IDLE, LET);
        Ok(())
    }

    fn after(&self, worker: u64, call: u64) {
        self.expect(worker, call);
        self.go(CALLED, IDLE);
        self.told.fetch_add(1, Ordering::SeqCst);
    }
}

/// A desk whose calls the clock sees.
#[derive(Drop)]
struct Timed<'a, D: Desk + Drop> {
    desk: D,
    clock: &'a Clock,
}

impl<'a, D: Desk + Drop> Desk for Timed<'a, D> {
    ghost arrivals = { λ t. D.arrivals t.desk };

    ghost went = { λ t u m. D.went t.desk u.desk m };

    ghost stays = { λ t. D.stays t.desk };

    ghost goes_on = { λ t u v m n. D.goes_on t.desk u.desk v.desk m n };

    fn take(&mut self, batch: &mut Batch) -> Result<Counts, DeskFault> {
        self.clock.go(LET, CALLED);
        self.desk.take(batch)
    }

    fn summary(&mut self) -> Result<Summary, DeskFault> {
        self.clock.go(LET, CALLED);
        self.desk.summary()
    }

    fn delta_page(&mut self, peer: &Summary, from: u64, limit: u64) -> Result<Batch, DeskFault> {
        self.clock.go(LET, CALLED);
        self.desk.delta_page(peer, from, limit)
    }

    fn page(&mut self, from: u64, limit: u64) -> Result<Batch, DeskFault> {
        self.clock.go(LET, CALLED);
        self.desk.page(from, limit)
    }

    fn query(&mut self, query: Query) -> Result<Answer, DeskFault> {
        self.clock.go(LET, CALLED);
        self.desk.query(query)
    }
}

/// Feeds a desk a batch of 250 events, which is three calls.
fn fed<D: Desk>(alloc: Global, desk: &mut D, clock: &Clock) -> Option<Report> {
    let text = json_batch(alloc, 1, 250).ok()?;
    Some(feed(alloc, desk, clock, 7, text.as_str().as_bytes()))
}

/// Whether a feed of which so many calls are let through ends so, with as many events taken.
fn feeds(alloc: Global, most: u64, fresh: u64, ended: WorkerEnd, calls: u64) -> bool {
    let clock = Clock::before_all(most);
    let mut timed = Timed {
        desk: Site::empty(alloc),
        clock: &clock,
    };
    let told = fed(alloc, &mut timed, &clock);
    told.is_some_and(|it| it.fresh == fresh && it.ended == ended) && clock.has_told(calls)
}

#[test]
fn a_gate_is_asked_before_each_batch_of_a_feed_and_told_behind_it(rt: HostRuntime) {
    assert!(rt; feeds(rt.alloc(), 9, 250, WorkerEnd::Done, 3));
    assert!(rt; feeds(rt.alloc(), 2, 200, WorkerEnd::GateShut, 2));
}

/// A pull between two desks by this clock.
fn pulled<D: Desk + Drop, E: Desk + Drop>(from: D, to: E, clock: &Clock) -> Report {
    let mut from = Timed { desk: from, clock };
    let mut to = Timed { desk: to, clock };
    pull(&mut from, &mut to, clock, 7)
}

/// Whether a pull of 150 events of which so many calls are let through ends so: it asks for the
/// summary, and for three pages, of which two are handed over.
fn pulls(alloc: Global, most: u64, fresh: u64, ended: WorkerEnd, calls: u64) -> bool {
    let mut from = Site::empty(alloc);
    if !fill(alloc, &mut from, 1, 150) || fresh > 150 {
        return false;
    }
    let clock = Clock::before_all(most);
    let told = pulled(from, Site::empty(alloc), &clock);
    told == report(fresh, 0, 0, ended) && clock.has_told(calls)
}

#[test]
fn a_gate_is_asked_before_each_call_of_a_pull_and_told_behind_it(rt: HostRuntime) {
    assert!(rt; pulls(rt.alloc(), 9, 150, WorkerEnd::Done, 6));
    assert!(rt; pulls(rt.alloc(), 0, 0, WorkerEnd::GateShut, 0));
    assert!(rt; pulls(rt.alloc(), 1, 0, WorkerEnd::GateShut, 1));
    assert!(rt; pulls(rt.alloc(), 2, 0, WorkerEnd::GateShut, 2));
    assert!(rt; pulls(rt.alloc(), 3, 100, WorkerEnd::GateShut, 3));
}

/// Whether a worker that asks three questions, of which so many are let through, ends so.
fn asks(alloc: Global, most: u64, ended: WorkerEnd, calls: u64) -> bool {
    let clock = Clock::before_all(most);
    let mut timed = Timed {
        desk: Site::empty(alloc),
        clock: &clock,
    };
    let asked = ask(
        alloc,
        &mut timed,
        &clock,
        7,
        &[Query::Kinds, Query::Cover, Query::Gaps],
    );
    asked.ended == ended && asked.answers.len() == calls && clock.has_told(calls)
}

#[test]
fn a_gate_is_asked_before_each_question_and_told_behind_it(rt: HostRuntime) {
    assert!(rt; asks(rt.alloc(), 9, WorkerEnd::Done, 3));
    assert!(rt; asks(rt.alloc(), 1, WorkerEnd::GateShut, 1));
}
