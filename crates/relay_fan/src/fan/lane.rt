//! A relay and its route, on their way through a window of rows.

ghost use Rattle.std.specs.Prelude.{◌≡◌, ◌⊎◌, ◌<◌, ◌≤◌, ◌-◌, ◌+◌, ℕ, List, length, None, Some, OnOk, IfOk, IfErr};
ghost use Rattle.attributes.specs.Event.{EventValue};
ghost use Rattle.relay.specs.Route.{AreIn, AreFromEither};
ghost use Rattle.relay_fan.specs.Fan.{AreSent, IsPage, rows_between};
ghost use Rattle.relay_fan.specs.steps.Lane.{Carries, IsQuiet, FailsAt, left};
ghost use Rattle.relay.specs.declared.fault.RelayFault.TheVariants.{OutOfMemory, Store};

use attributes::Batch;
use paging::MAX_PAGE;
use relay::{Relay, RelayFault, Route};
use site::Gate;
use std::alloc::{AllocError, Global};

/// A relay, its route, and how far they are.
#[derive(Drop)]
pub(crate) struct Lane<R> {
    /// The number of its worker: its place among the lanes, from 0.
    pub(crate) place: u64,
    pub(crate) relay: Relay,
    pub(crate) route: R,
    /// How many pages were sent, or tried.
    pub(crate) calls: u64,
    /// Why it goes no further.
    pub(crate) fault: Option<RelayFault>,
}

/// A page of rows and the number of its last one.
#[derive(Drop)]
struct Page {
    rows: Batch,
    last: u64,
}

/// Copies of the rows at these places, to be sent to a route.
fn copied(alloc: Global, rows: &Batch, from: u64, to: u64) -> Result<Batch, AllocError>
    requires low { from ≤ to }
    requires high { to ≤ length rows.now }
    ensures there { IfOk result (λ page. AreSent 0 rows.now from to page) }
    ensures rows { IfOk result (λ page. AreIn page rows.now) }
    ensures exact { IfOk result (λ page. page ≡ rows_between 0 rows.now from to) }
{
    let mut page = Batch::empty(alloc);
    for i in from..to {
        match page.push(rows.at(i).copy()?) {
            Ok(()) => {}
            Err(_) => return Err(AllocError),
        }
    }
    Ok(page)
}

/// The relay's next page after the mark, of rows that have the numbers after `start`.
fn next_page(alloc: Global, rows: &Batch, start: u64, mark: u64) -> Result<Page, RelayFault>
    requires { mark - start < length rows.now }
    ensures last { IfOk result (λ p. (mark < p.last) × (p.last ≤ start + length rows.now)) }
    ensures there { IfOk result (λ p. AreSent start rows.now mark p.last p.rows) }
    ensures rows { IfOk result (λ p. AreIn p.rows rows.now) }
    ensures exact { IfOk result (λ p. p.rows ≡ rows_between start rows.now mark p.last) }
    ensures sized { IfOk result (λ p. IsPage p.rows) }
    ensures fault { IfErr result (λ f. (f ≡ OutOfMemory) ⊎ (f ≡ Store)) }
{
    let from = mark.saturating_sub(start);
    let to = rows.len().min(from.saturating_add(MAX_PAGE));
    let Some(last) = start.checked_add(to) else {
        return Err(RelayFault::Store);
    };
    match copied(alloc, rows, from, to) {
        Ok(rows) => Ok(Page { rows, last }),
        Err(_) => Err(RelayFault::OutOfMemory),
    }
}

/// Sends a page to a route, where the gate lets it through.
fn send_page<R: Route, G: Gate>(
    gate: &G,
    worker: u64,
    call: u64,
    page: &Batch,
    route: &mut R,
) -> Result<(), RelayFault>
    ensures sent { OnOk result (AreIn page.now (R.accepted route.new)) }
    ensures kept { AreIn (R.accepted route.old) (R.accepted route.new) }
    ensures new { AreFromEither (R.accepted route.new) (R.accepted route.old) page.now }
    ensures took { OnOk result (R.takes route.old page.now route.new) }
    ensures gated { OnOk result (G.lets gate.now worker call × G.heard gate.now worker call) }
    ensures fault { IfErr result (FailsAt R.has_failed (G.lets gate.now) (G.shuts gate.now)
        (G.heard gate.now) worker call route.old route.new) }
{
    match gate.before(worker, call) {
        Ok(()) => {}
        Err(_) => return Err(RelayFault::GateShut),
    }
    let sent = route.send(page);
    gate.after(worker, call);
    match sent {
        Ok(()) => Ok(()),
        Err(_) => Err(RelayFault::RouteFailed),
    }
}

/// The lane to a route, stopped for a fault that came to no call.
pub(super) fn stopped<R: Route, G: Gate>(gate: &G, lane: Lane<R>, fault: RelayFault) -> Lane<R>
    requires going { lane.fault ≡ None }
    requires quiet { IsQuiet fault }
    ensures carried { (start : ℕ) (rows : List EventValue)
        → Carries R.accepted R.takes R.has_failed (G.lets gate.now) (G.shuts gate.now)
        (G.heard gate.now) start rows lane result }
    ensures fault { result.fault ≡ Some fault }
{
    let _ = gate;
    let Lane {
        place,
        relay,
        route,
        calls,
        fault: _,
    } = lane;
    Lane {
        place,
        relay,
        route,
        calls,
        fault: Some(fault),
    }
}

/// Sends the next page to the route of a lane that goes on, and raises its mark to the last row.
fn send_next<R: Route, G: Gate>(
    alloc: Global,
    rows: &Batch,
    start: u64,
    gate: &G,
    lane: Lane<R>,
) -> Lane<R>
    requires going { lane.fault ≡ None }
    requires more { lane.relay.mark - start < length rows.now }
    ensures carried { Carries R.accepted R.takes R.has_failed (G.lets gate.now) (G.shuts gate.now)
        (G.heard gate.now) start rows.now lane result }
    ensures less { left start rows.now result < left start rows.now lane }
{
    let page = match next_page(alloc, rows, start, lane.relay.mark()) {
        Ok(page) => page,
        Err(fault) => return stopped(gate, lane, fault),
    };
    let Some(call) = lane.calls.checked_add(1) else {
        return stopped(gate, lane, RelayFault::Store);
    };
    let Lane {
        place,
        relay,
        mut route,
        calls: _,
        fault: _,
    } = lane;
    match send_page(gate, place, call, &page.rows, &mut route) {
        Ok(()) => Lane {
            place,
            relay: Relay::at(relay.site(), page.last),
            route,
            calls: call,
            fault: None,
        },
        Err(fault) => Lane {
            place,
            relay,
            route,
            calls: call,
            fault: Some(fault),
        },
    }
}

/// Sends page after page to a route, until all rows are sent or the lane stops.
pub(super) fn carry_lane<R: Route, G: Gate>(
    alloc: Global,
    rows: &Batch,
    start: u64,
    gate: &G,
    lane: Lane<R>,
) -> Lane<R>
    ensures { Carries R.accepted R.takes R.has_failed (G.lets gate.now) (G.shuts gate.now)
        (G.heard gate.now) start rows.now lane result }
{
    let mut lane = lane;
    'pages: while lane.fault.is_none() && lane.relay.mark().saturating_sub(start) < rows.len() {
        lane = send_next(alloc, rows, start, gate, lane);
    }
    lane
}
