//! The rows of one outbox, sent to several routes at the same time.

mod desk;
mod lane;
mod slot;
mod window;

ghost use Rattle.std.specs.Prelude.{◌≡◌, ◌⊎◌, ◌<◌, ◌≤◌, ◌++◌, ◌∷◌, [], List, length, map, IfSome, None, All};
ghost use Rattle.std.specs.Vec.{vec_capacity, vec_len};
ghost use Rattle.sqlite.specs.State.{HasCleanDisk};
ghost use Rattle.sqlite.specs.Held.{state};
ghost use Rattle.outbox.specs.Order.{Accepted};
ghost use Rattle.outbox.specs.Row.{rows_of};
ghost use Rattle.outbox.specs.Service.{IsService};
ghost use Rattle.outbox.specs.Call.{IsServiceReading};
ghost use Rattle.relay_fan.specs.Fan.{AtEach, LeavesLane, Delivers};
ghost use Rattle.relay_fan.specs.steps.Lane.{ArePlaced, end_of_lane};
ghost use Rattle.relay_fan.specs.steps.Slot.{IsEnded};
ghost use Rattle.relay_fan.specs.declared.fan.slot.Slot.TheVariants.{Ended, Waiting};
ghost use Rattle.outbox.specs.Shown.{IsSameService};

use crate::fan::desk::run_slots;
use crate::fan::lane::Lane;
use crate::fan::slot::Slot;
use crossbeam_channel::{Receiver, Sender, bounded};
use outbox::Service;
use relay::{Relay, RelayFault, Route};
use site::Gate;
use sqlite::Alter;
use std::alloc::Global;
use std::sync::Wait;
use std::sync::atomic::AtomicBool;
use std::thread::Threads;

/// Relays in an order.
pub type Relays = Vec<Relay>;

/// Routes in an order.
pub type Routes<R> = Vec<R>;

/// How a relay ended.
#[derive(Clone, Copy, PartialEq, Eq, Debug, Drop)]
pub enum End {
    /// No row lies after its mark.
    Done,
    /// It stopped, and rows may be left.
    Failed(RelayFault),
}

/// What is left of a fan-out: the routes, and how each relay ended, both in their order. No end
/// where memory was refused before anything was sent.
#[derive(Drop)]
pub struct FanOut<R> {
    pub routes: Routes<R>,
    pub ends: Vec<End>,
}

/// Room for so many lanes and for what is left of them, and what their workers share.
#[derive(Drop)]
struct Room<R: Route + Drop, G: Gate> {
    lanes: Vec<Lane<R>>,
    slots: Vec<Slot<R, G>>,
    ended: Vec<Lane<R>>,
    routes: Routes<R>,
    ends: Vec<End>,
    shared: Shared,
}

/// What workers share with the caller's thread.
#[derive(Drop)]
struct Shared {
    /// For each lane whether a thread for it couldn't be made.
    refused: Vec<AtomicBool>,
    /// Where a worker tells its place, with room for all.
    done: Sender<u64, Global>,
    told: Receiver<u64, Global>,
}

/// A flag for each of so many route lanes, a channel with room for them. None for want of memory.
fn shared_for(alloc: Global, count: usize) -> Option<Shared>
    ensures { IfSome result (λ s. length s.refused.items ≡ count) }
{
    let Ok(mut refused) = Vec::with_capacity(alloc, count) else {
        return None;
    };
    for _lane in 0..count {
        let Ok(()) = refused.push(AtomicBool::new(false)) else {
            return None;
        };
    }
    match bounded(alloc, count) {
        Ok((done, told)) => Some(Shared {
            refused,
            done,
            told,
        }),
        Err(_) => None,
    }
}

/// Room for so many lanes of a fan-out to routes. None for want of memory.
fn room_for<R: Route + Drop, G: Gate>(alloc: Global, count: usize) -> Option<Room<R, G>>
    ensures empty { IfSome result (λ r. (r.lanes.items ≡ []) × (r.slots.items ≡ [])
        × (r.ended.items ≡ []) × (r.routes.items ≡ []) × (r.ends.items ≡ [])) }
    ensures room { IfSome result (λ r. (count ≤ vec_capacity r.lanes)
        × (count ≤ vec_capacity r.slots) × (count ≤ vec_capacity r.ended)
        × (count ≤ vec_capacity r.routes) × (count ≤ vec_capacity r.ends)) }
    ensures shared { IfSome result (λ r. length r.shared.refused.items ≡ count) }
{
    let Ok(lanes) = Vec::with_capacity(alloc, count) else {
        return None;
    };
    let Ok(slots) = Vec::with_capacity(alloc, count) else {
        return None;
    };
    let Ok(ended) = Vec::with_capacity(alloc, count) else {
        return None;
    };
    let Ok(routes) = Vec::with_capacity(alloc, count) else {
        return None;
    };
    let Ok(ends) = Vec::with_capacity(alloc, count) else {
        return None;
    };
    match shared_for(alloc, count) {
        Some(shared) => Some(Room {
            lanes,
            slots,
            ended,
            routes,
            ends,
            shared,
        }),
        None => None,
    }
}

/// Adds a value of a fan-out's lanes where there is room for it.
fn put<T: Drop>(list: &mut Vec<T>, value: T)
    requires { vec_len list.old < vec_capacity list.old }
    ensures items { list.new.items ≡ list.old.items ++ value ∷ [] }
    ensures room { vec_capacity list.old ≤ vec_capacity list.new }
{
    let Ok(()) = list.push(value) else {
        unreachable!()
    };
}

/// A fan-out's lane for each relay and its route, in the room that was made for them.
fn lanes_of<R: Drop>(relays: &Relays, routes: Routes<R>, room: Vec<Lane<R>>) -> Vec<Lane<R>>
    requires paired { length relays.now.items ≡ length routes.items }
    requires empty { room.items ≡ [] }
    requires room { length routes.items ≤ vec_capacity room }
    ensures relays { map (λ l. l.relay) result.items ≡ relays.now.items }
    ensures routes { map (λ l. l.route) result.items ≡ routes.items }
    ensures fresh { All (λ l. (l.fault ≡ None) × (l.calls ≡ 0)) result.items }
    ensures placed { ArePlaced 0 result.items }
{
    let mut lanes = room;
    let mut place = 0;
    for route in routes {
        put(
            &mut lanes,
            Lane {
                place: place as u64,
                relay: relays[place],
                route,
                calls: 0,
                fault: None,
            },
        );
        place += 1;
    }
    lanes
}

/// The lanes of a fan-out, each waiting to go on, in the room that was made for them.
fn slots_of<R: Route + Drop, G: Gate>(lanes: Vec<Lane<R>>, room: Vec<Slot<R, G>>) -> Vec<Slot<R, G>>
    requires empty { room.items ≡ [] }
    requires room { length lanes.items ≤ vec_capacity room }
    ensures { result.items ≡ map Waiting lanes.items }
{
    let mut slots = room;
    for lane in lanes {
        put(&mut slots, Slot::Waiting(lane));
    }
    slots
}

/// The lanes of a fan-out once all have ended, in the room that was made for them.
fn lanes_back<R: Route + Drop, G: Gate>(slots: Vec<Slot<R, G>>, room: Vec<Lane<R>>) -> Vec<Lane<R>>
    requires ended { All IsEnded slots.items }
    requires empty { room.items ≡ [] }
    requires room { length slots.items ≤ vec_capacity room }
    ensures { map Ended result.items ≡ slots.items }
{
    let mut lanes = room;
    for slot in slots {
        let Slot::Ended(lane) = slot else {
            unreachable!()
        };
        put(&mut lanes, lane);
    }
    lanes
}

/// How a fan-out's lane to its route ended.
fn end_at<R>(lane: &Lane<R>) -> End
    ensures { result ≡ end_of_lane lane.now }
{
    match lane.fault {
        Some(fault) => End::Failed(fault),
        None => End::Done,
    }
}

/// The relays, routes and ends of a fan-out's lanes, in the room that was made for them.
fn settle<R: Drop>(
    lanes: Vec<Lane<R>>,
    relays: &mut Relays,
    routes: Routes<R>,
    ends: Vec<End>,
) -> FanOut<R>
    requires empty { (relays.old.items ≡ []) × (routes.items ≡ []) × (ends.items ≡ []) }
    requires room { (length lanes.items ≤ vec_capacity relays.old)
        × (length lanes.items ≤ vec_capacity routes) × (length lanes.items ≤ vec_capacity ends) }
    ensures relays { relays.new.items ≡ map (λ l. l.relay) lanes.items }
    ensures routes { result.routes.items ≡ map (λ l. l.route) lanes.items }
    ensures ends { result.ends.items ≡ map end_of_lane lanes.items }
{
    let mut routes = routes;
    let mut ends = ends;
    for lane in lanes {
        put(&mut ends, end_at(&lane));
        let Lane {
            place: _,
            relay,
            route,
            calls: _,
            fault: _,
        } = lane;
        put(relays, relay);
        put(&mut routes, route);
    }
    FanOut { routes, ends }
}

/// Sends the rows after each relay's mark to its route, in a thread for each route, until no row is
/// left or the route fails; none waits for another. Marks rise as the routes accept. The connection
/// stays with the caller's thread, which reads a window of at most 1,000 rows for each route that
/// comes back over a channel.
///
/// A worker's number is its route's place, from 0, and each page of at most 100 rows is a call,
/// from 1; the gate is asked before it and told after it. Each page is handed to its route once.
/// `RouteFailed` is the end of a route that failed at its last page, `GateShut` that of one whose
/// gate was shut, `NoThread` where its thread couldn't be started, `Store` where rows couldn't be
/// read, and `OutOfMemory` for want of memory; those leave the route as it was. The routes
/// come back whatever fails. It may wait for as long as routes and gate do.
///
/// Memory for a window and a page a route; the time is that of the slowest route, or of reading
/// each row once for each route.
pub fn fan_out<H: Threads + Wait + Sync, S: Alter, R: Route + Drop + Send, G: Gate + Sync>(
    rt: &H,
    alloc: Global,
    service: &mut Service<S>,
    relays: &mut Relays,
    routes: Routes<R>,
    gate: &G,
) -> FanOut<R>
    requires few { (1 ≤ length routes.items) × (length routes.items ≤ 16) }
    requires paired { length relays.old.items ≡ length routes.items }
    ensures kept_service { IsSameService service.old service.new }
    ensures service { IsServiceReading (state S.Store service.old.conn) (state S.Store service.new.conn) }
    ensures back { (length relays.new.items ≡ length relays.old.items)
        × (length result.routes.items ≡ length routes.items) }
    ensures ends { (result.ends.items ≡ [])
        ⊎ (length result.ends.items ≡ length routes.items) }
    ensures not_begun { result.ends.items ≡ []
        → (result.routes.items ≡ routes.items) × (relays.new.items ≡ relays.old.items) }
    ensures each { AtEach relays.old.items relays.new.items routes.items result.routes.items
        result.ends.items (LeavesLane R.accepted R.takes R.has_failed (G.lets gate.now)
        (G.shuts gate.now) (G.heard gate.now)) }
    ensures sent { HasCleanDisk (state S.Store service.new.conn) → (commands : List Accepted)
        → IsService (state S.Store service.old.conn).now service.old.source service.old.base
        commands
        → AtEach relays.old.items relays.new.items routes.items result.routes.items
        result.ends.items (Delivers R.accepted R.takes R.has_failed (G.lets gate.now)
        (G.shuts gate.now) (G.heard gate.now) service.old.base
        (rows_of service.old.source service.old.base commands)) }
{
    // What needs memory comes first, so that nothing that was sent goes unreported.
    let Some(room) = room_for(alloc, routes.len()) else {
        return FanOut {
            routes,
            ends: Vec::new(alloc),
        };
    };
    let Room {
        lanes,
        slots,
        ended,
        routes: back,
        ends,
        shared,
    } = room;
    let lanes = lanes_of(relays, routes, lanes);
    let slots = slots_of(lanes, slots);
    let Shared {
        refused,
        done,
        told,
    } = shared;
    let slots = run_slots(rt, alloc, gate, &done, &told, &refused, service, slots);
    let lanes = lanes_back(slots, ended);
    relays.clear();
    settle(lanes, relays, back, ends)
}
