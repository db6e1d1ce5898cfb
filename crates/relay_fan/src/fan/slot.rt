//! Where a lane is while it goes on: here, or with a worker in a thread of its own.

ghost use Rattle.std.specs.Prelude.{◌≡◌, None};
ghost use Rattle.relay_fan.specs.steps.Lane.{Carries};
ghost use Rattle.relay_fan.specs.steps.Slot.{Starts};

use crate::fan::lane::{Lane, carry_lane, stopped};
use attributes::Batch;
use crossbeam_channel::Sender;
use relay::{RelayFault, Route};
use site::Gate;
use std::alloc::Global;
use std::snapshot::Snapshot;
use std::sync::Wait;
use std::sync::atomic::{AtomicBool, Ordering};
use std::thread::{Promise, PromisedHandle, Scope, Threads};

/// What a worker promises: it carries this lane over these rows, past this gate.
#[derive(Drop)]
pub(crate) struct Carried<R, G> {
    pub(crate) lane: Snapshot<Lane<R>>,
    pub(crate) rows: Snapshot<Batch>,
    pub(crate) start: u64,
    pub(crate) gate: Snapshot<G>,
}

impl<R: Route, G: Gate> Promise<Lane<R>> for Carried<R, G> {
    ghost use Rattle.relay_fan.specs.steps.Lane.{Carries};

    ghost kept_by = { λ p lane.
        Carries R.accepted R.takes R.has_failed (G.lets p.gate.value) (G.shuts p.gate.value)
        (G.heard p.gate.value) p.start p.rows.value p.lane.value lane };
}

/// Where a lane is.
#[derive(Drop)]
pub(crate) enum Slot<R: Route + Drop, G: Gate> {
    /// Here, to go on.
    Waiting(Lane<R>),
    /// With a worker, which carries it over a window.
    Busy(PromisedHandle<Lane<R>, Carried<R, G>>),
    /// Here: it stopped, or no row is left for it.
    Ended(Lane<R>),
    /// Taken out, for as long as its next window is made.
    Taken,
}

/// What a fan-out's worker does: it carries the lane over the window, and then tells its place.
fn work<H: Wait, R: Route, G: Gate>(
    rt: &H,
    alloc: Global,
    gate: &G,
    done: &Sender<u64, Global>,
    start: u64,
    rows: Batch,
    lane: Lane<R>,
) -> Lane<R>
    ensures { Carries R.accepted R.takes R.has_failed (G.lets gate.now) (G.shuts gate.now)
        (G.heard gate.now) start rows lane result }
{
    let lane = carry_lane(alloc, &rows, start, gate, lane);
    // The channel has room for all lanes. What is told isn't believed, only waited for.
    let _told = done.send(rt, lane.place);
    lane
}

/// Lets a worker carry the lane to a route over the window, in a thread of its own. Where no thread
/// can be made the worker's closure comes back with the lane in it; called here, it hands the lane
/// out, stopped.
pub(super) fn start<'s, E, H: Threads + Wait + Sync, R: Route + Drop + Send + 's, G: Gate + Sync>(
    scope: &Scope<'s, E>,
    rt: &'s H,
    alloc: Global,
    gate: &'s G,
    done: &'s Sender<u64, Global>,
    refused: &'s AtomicBool,
    start: u64,
    rows: Batch,
    lane: Lane<R>,
) -> Slot<R, G>
    requires going { lane.fault ≡ None }
    ensures { Starts R.accepted R.takes R.has_failed G.lets G.shuts G.heard gate.now start rows
        lane result }
{
    let promise = Carried {
        lane: Snapshot::of(&lane),
        rows: Snapshot::of(&rows),
        start,
        gate: Snapshot::of(gate),
    };
    let child = scope.spawn_with(
        promise,
        move || -> Lane<R>
            requires { lane.fault ≡ None }
            ensures { Carries R.accepted R.takes R.has_failed (G.lets gate.entry.now)
                (G.shuts gate.entry.now) (G.heard gate.entry.now) start rows lane result }
        {
            if refused.load(Ordering::SeqCst) {
                stopped(gate, lane, RelayFault::NoThread)
            } else {
                work(rt, alloc, gate, done, start, rows, lane)
            }
        },
    );
    match child {
        Ok(child) => Slot::Busy(child),
        Err(refusal) => {
            refused.store(true, Ordering::SeqCst);
            Slot::Waiting((refusal.value)())
        }
    }
}
