//! A thread for each job, and the aside beside them.

ghost use Rattle.std.specs.Prelude.{◌≡◌, ◌≤◌, ◌<◌, ◌+◌, ◌++◌, ◌∷◌, [], length, IfSome, List};
ghost use Rattle.std.specs.Vec.{vec_capacity};
ghost use Rattle.std.specs.Thread.{IsSync};
ghost use Rattle.site.specs.declared.call.Call.{Call};
ghost use Rattle.feeds.specs.steps.Serve.{AreAt, Each, EndsJob, Performs};

use crate::aside::Aside;
use crate::asking::ask;
use crate::feeding::feed;
use crate::pulling::pull_from;
use crate::serving::worker::{Finished, Job, JobEnd, Work, put};
use site::{Desk, Gate};
use site_lock::laws::threads_share_a_site;
use site_lock::{Caller, SharedSite};
use std::alloc::Global;
use std::snapshot::Snapshot;
use std::sync::Wait;
use std::sync::atomic::{AtomicU64, Ordering};
use std::thread;
use std::thread::{Promise, Threads};

/// What a worker promises: it does this job, past this gate.
#[derive(Drop)]
struct Done<G> {
    job: Snapshot<Job>,
    gate: Snapshot<G>,
}

impl<G: Gate> Promise<Finished> for Done<G> {
    ghost use Rattle.feeds.specs.steps.Serve.{EndsJob};

    ghost kept_by = { λ p finished. EndsJob (G.lets p.gate.value) (G.shuts p.gate.value)
        (G.heard p.gate.value) p.job.value finished };
}

/// Does a worker's work over a desk.
fn do_work<D: Desk, G: Gate>(
    alloc: Global,
    desk: &mut D,
    gate: &G,
    worker: u64,
    work: Work,
) -> JobEnd
    ensures { (m : List Call) × D.went desk.old desk.new m
        × Performs (G.lets gate.now) (G.shuts gate.now) (G.heard gate.now) worker work m
        (D.arrivals desk.new) result }
{
    match work {
        Work::Feed(bytes) => { JobEnd::Reported(feed(alloc, desk, gate, worker, bytes.as_bytes())) }
        Work::Pull(mut peer) => JobEnd::Reported(pull_from(&mut peer, desk, gate, worker)),
        Work::Ask(queries) => {
            JobEnd::Answered(ask(alloc, desk, gate, worker, queries.as_slice()))
        }
    }
}

/// Does a worker's job, and then counts it as no longer left.
fn work<R: Wait, G: Gate>(
    rt: &R,
    alloc: Global,
    shared: &SharedSite,
    gate: &G,
    job: Job,
    left: &AtomicU64,
) -> Finished
    requires { job.pass.table ≡ shared.now }
    ensures { EndsJob (G.lets gate.now) (G.shuts gate.now) (G.heard gate.now) job result }
{
    let Job { worker, work, pass } = job;
    let mut caller = Caller::of(rt, shared, pass);
    let outcome = do_work(alloc, &mut caller, gate, worker, work);
    let pass = caller.into_pass();
    left.fetch_sub(1, Ordering::SeqCst);
    Finished { outcome, pass }
}

/// Turns the aside until it stops or no worker's job is left.
fn turn_until_done<R: Wait, A: Aside + Drop>(rt: &R, left: &AtomicU64, mut aside: A) -> A
    ensures { A.moves aside result }
{
    for _ in rt.forever() {
        if left.load(Ordering::SeqCst) == 0 || !aside.turn() {
            return aside;
        }
        thread::yield_now();
    }
    unreachable!()
}

/// Does each worker's job in a thread of its own, and turns the aside meanwhile. What came of the
/// jobs is put into the room that was made for it; none where a thread couldn't be started.
#[cycle(jobs)]
#[tactic(auto, using(crate::proofs::ServeLemmas::one_more, crate::proofs::ServeLemmas::at_last))]
fn run_jobs<R: Threads + Wait + Sync, G: Gate + Sync, A: Aside + Drop>(
    rt: &R,
    alloc: Global,
    shared: &SharedSite,
    gate: &G,
    mut jobs: Vec<Job>,
    room: Vec<Finished>,
    left: &AtomicU64,
    aside: A,
) -> (A, Option<Vec<Finished>>)
    requires own { AreAt shared.now jobs.items }
    requires empty { room.items ≡ [] }
    requires room { length jobs.items ≤ vec_capacity room }
    ensures aside { A.moves aside result.0 }
    ensures each { IfSome result.1 (λ v.
        Each (EndsJob (G.lets gate.now) (G.shuts gate.now) (G.heard gate.now)) jobs.items v.items
        × (vec_capacity room ≤ vec_capacity v)) }
{
    let Some(job) = jobs.pop() else {
        return (turn_until_done(rt, left, aside), Some(room));
    };
    let promise = Done {
        job: Snapshot::of(&job),
        gate: Snapshot::of(gate),
    };
    thread::scope(
        thread::scope_env(),
        rt,
        move |scope| -> (A, Option<Vec<Finished>>)
            requires { IsSync R.row × IsSync G.row × AreAt shared.now jobs.items
                × (job.pass.table ≡ shared.now) × (promise.job.value ≡ job)
                × (promise.gate.value ≡ gate.now) × (room.items ≡ [])
                × (length jobs.items < vec_capacity room) }
            ensures { A.moves aside result.0
                × IfSome result.1 (λ v. Each (EndsJob (G.lets gate.entry.now)
                (G.shuts gate.entry.now) (G.heard gate.entry.now)) (jobs.items ++ job ∷ []) v.items
                × (vec_capacity room ≤ vec_capacity v)) }
        {
            threads_share_a_site();
            let child = scope.spawn_with(
                promise,
                move || -> Finished
                    requires { IsSync R.row × IsSync G.row × (job.pass.table ≡ shared.now) }
                    ensures { EndsJob (G.lets gate.entry.now) (G.shuts gate.entry.now)
                        (G.heard gate.entry.now) job result }
                { work(rt, alloc, shared, gate, job, left) },
            );
            match child {
                Err(_) => (aside, None),
                Ok(child) => {
                    let (aside, rest) = run_jobs(rt, alloc, shared, gate, jobs, room, left, aside);
                    let last = child.join(rt);
                    match rest {
                        None => (aside, None),
                        Some(mut all) => {
                            put(&mut all, last);
                            (aside, Some(all))
                        }
                    }
                }
            }
        },
    )
}

/// An aside that stays its owner's.
#[derive(Drop)]
struct Lent<'a, A: Aside> {
    aside: &'a mut A,
}

impl<'a, A: Aside> Aside for Lent<'a, A> {
    ghost use Rattle.std.specs.Prelude.{◌≡◌, refl};
    ghost use Rattle.std.proofs.Common.{◌∙◌};

    ghost moves = { λ a b. (b.aside.ghost_name ≡ a.aside.ghost_name)
        × A.moves a.aside.now b.aside.now };

    ghost stays = { λ a. (refl, A.stays a.aside.now) };

    ghost goes_on = { λ a b c first then. (
      then.0 ∙ first.0,
      A.goes_on a.aside.now b.aside.now c.aside.now first.1 then.1,
    ) };

    fn turn(&mut self) -> bool {
        self.aside.turn()
    }
}

/// Hands an aside of workers back as it is. Its law tells that it may stay so.
pub(super) fn stay<A: Aside>(aside: &mut A)
    ensures same { aside.new ≡ aside.old }
    ensures moves { A.moves aside.old aside.new }
{
    let _ = aside;
}

/// Workers do jobs as in `run_jobs`, with an aside that stays the caller's.
pub(super) fn run_beside<R: Threads + Wait + Sync, G: Gate + Sync, A: Aside>(
    rt: &R,
    alloc: Global,
    shared: &SharedSite,
    gate: &G,
    jobs: Vec<Job>,
    room: Vec<Finished>,
    left: &AtomicU64,
    aside: &mut A,
) -> Option<Vec<Finished>>
    requires own { AreAt shared.now jobs.items }
    requires empty { room.items ≡ [] }
    requires room { length jobs.items ≤ vec_capacity room }
    ensures aside { A.moves aside.old aside.new }
    ensures each { IfSome result (λ v.
        Each (EndsJob (G.lets gate.now) (G.shuts gate.now) (G.heard gate.now)) jobs.items v.items
        × (vec_capacity room ≤ vec_capacity v)) }
{
    let (lent, all) = run_jobs(rt, alloc, shared, gate, jobs, room, left, Lent { aside });
    let Lent { aside } = lent;
    stay(aside);
    all
}
