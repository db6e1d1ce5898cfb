//! Threads over one site, each with a pass of its own.

ghost use Rattle.std.specs.Prelude.{◌≡◌, ◌<◌};
ghost use denote.Param.Send.{IsSync};

use crate::shared::{begun, take};
use site_lock::laws::threads_share_a_site;
use site_lock::{Begun, Pass, SharedSite};
use std::alloc::Global;
use std::sync::Wait;
use std::thread::{Threads, join};
use views::{Answer, Query};

/// What each worker does, one call after another.
#[derive(Clone, Copy)]
enum Work {
    /// It takes so many events that no other worker takes, one a call.
    Take(u64),
    /// It asks so many times for the event that came first.
    Ask(u64),
}

/// Takes the event with a number, and answers whether it did.
fn take_one<R: Wait>(
    rt: &R,
    alloc: Global,
    shared: &SharedSite,
    pass: &mut Pass,
    number: u64,
) -> bool
    requires { pass.old.table ≡ shared.now }
    ensures { pass.new.table ≡ pass.old.table }
{
    match format!(in alloc; "{number}") {
        Ok(id) => take(rt, alloc, shared, pass, &[(id.as_str(), number)]).is_some(),
        Err(_) => false,
    }
}

/// Takes so many events, one a call, with the numbers from `from` on.
fn take_many<R: Wait>(
    rt: &R,
    alloc: Global,
    shared: &SharedSite,
    pass: Pass,
    from: u64,
    count: u64,
) -> Pass
    requires { pass.table ≡ shared.now }
    ensures { result.table ≡ pass.table }
{
    let mut own = pass;
    for k in 0..count {
        let _ = take_one(rt, alloc, shared, &mut own, from.wrapping_add(k));
    }
    own
}

/// Asks so many times for the event that came first.
fn ask_many<R: Wait>(rt: &R, shared: &SharedSite, pass: Pass, count: u64) -> Pass
    requires { pass.table ≡ shared.now }
    ensures { result.table ≡ pass.table }
{
    let mut own = pass;
    for _k in 0..count {
        let _ = shared.fresh(rt, &mut own, 0, 1);
    }
    own
}

/// Does the work of one worker.
fn do_work<R: Wait>(
    rt: &R,
    alloc: Global,
    shared: &SharedSite,
    pass: Pass,
    worker: u64,
    work: Work,
) -> Pass
    requires { pass.table ≡ shared.now }
    ensures { result.table ≡ pass.table }
{
    match work {
        Work::Take(count) => take_many(rt, alloc, shared, pass, worker.wrapping_mul(1000), count),
        Work::Ask(count) => ask_many(rt, shared, pass, count),
    }
}

/// 2 to the power of `levels` workers, each in a thread of its own with a pass of its own. The pass
/// that comes back has met all of them. Workers have numbers: the first has `worker` times that
/// power.
#[cycle(levels)]
fn work_together<R: Threads + Wait + Sync>(
    rt: &R,
    alloc: Global,
    shared: &SharedSite,
    pass: Pass,
    worker: u64,
    work: Work,
    levels: u32,
) -> Pass
    requires runtime { IsSync R.row }
    requires own { pass.table ≡ shared.now }
    ensures { result.table ≡ pass.table }
{
    if levels == 0 {
        return do_work(rt, alloc, shared, pass, worker, work);
    }
    let mut first = pass;
    let Ok(second) = shared.split(&mut first) else {
        return first;
    };
    threads_share_a_site();
    let left = worker.wrapping_mul(2);
    let (mut first, mut second) = join(
        rt,
        || -> Pass
            requires { IsSync R.row × (first.table ≡ shared.now) × (0 < levels) }
            ensures { result.table ≡ first.table }
        { work_together(rt, alloc, shared, first, left, work, levels - 1) },
        || -> Pass
            requires { IsSync R.row × (second.table ≡ shared.now) × (0 < levels) }
            ensures { result.table ≡ second.table }
        {
            work_together(
                rt,
                alloc,
                shared,
                second,
                left.wrapping_add(1),
                work,
                levels - 1,
            )
        },
    );
    let _ = shared.meet(&mut first, &mut second);
    first
}

/// Runs 2 to the power of `levels` workers over a site without events, and tells how many events
/// it then shows, how many turns ended, and how many events it has.
fn after_work<R: Threads + Wait + Sync>(
    rt: &R,
    alloc: Global,
    levels: u32,
    work: Work,
) -> Option<(u64, u64, u64)> {
    let Begun { shared, pass } = begun(alloc)?;
    let mut pass = work_together(rt, alloc, &shared, pass, 1, work, levels);
    let answer = shared.query(rt, &mut pass, Query::Shown);
    let turns = shared.turns(&mut pass);
    let arrived = shared.close(rt, pass).arrived();
    match answer {
        Ok(Answer::Shown(events)) => Some((events.len(), turns, arrived)),
        _ => None,
    }
}

#[test]
fn two_threads_take_turns(rt: HostRuntime) {
    let counts = after_work(&rt, rt.alloc(), 1, Work::Take(100)).expect(&rt, "no memory");
    assert!(rt; counts == (200, 201, 200));
}

#[test]
fn sixteen_threads_take_turns(rt: HostRuntime) {
    let counts = after_work(&rt, rt.alloc(), 4, Work::Ask(6250)).expect(&rt, "no memory");
    assert!(rt; counts == (0, 100_001, 0));
}

/// With ample memory it says less than the two above. Run with each allocation refused in turn,
/// some within a turn, it says that a refused call has its turn and adds nothing but what it took.
#[test]
fn what_was_refused_is_not_there(rt: HostRuntime) {
    if let Some((shown, turns, arrived)) = after_work(&rt, rt.alloc(), 1, Work::Take(5)) {
        assert!(rt; shown == arrived && arrived <= 10 && arrived < turns && turns <= 11);
    }
}
