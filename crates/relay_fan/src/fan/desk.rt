//! The caller's thread: it reads a window for each lane that comes back, whichever it is.

ghost use Rattle.std.specs.Prelude.{◌≡◌, ◌<◌, List, length, IfErr, IfOk, IfSome, All, None};
ghost use Rattle.std.specs.Thread.{IsSync, IsSend};
ghost use Rattle.sqlite.specs.Effect.{Database};
ghost use Rattle.sqlite.specs.Held.{state};
ghost use Rattle.outbox.specs.Call.{IsServiceReading};
ghost use Rattle.relay_fan.specs.steps.Lane.{Comes, AllAtPlaces, IsStill};
ghost use Rattle.relay_fan.specs.steps.Slot.{IsEnded, IsOf, Lands};
ghost use Rattle.relay_fan.specs.declared.fan.lane.Lane.{Lane};
ghost use Rattle.outbox.specs.Shown.{IsSameService};

use crate::fan::lane::{Lane, stopped};
use crate::fan::slot::{Slot, start};
use crate::fan::window::read_window;
use crossbeam_channel::{Receiver, Sender};
use outbox::Service;
use relay::Route;
use site::Gate;
use sqlite::Alter;
use std::alloc::Global;
use std::sync::Wait;
use std::sync::atomic::AtomicBool;
use std::thread::{Scope, Threads};
use std::{mem, thread};

/// Lets a route's lane that is here go on over a window; it ends if it stopped or no row is left.
fn advance<'s, E, H: Threads + Wait + Sync, S: Alter, R: Route + Drop + Send + 's, G: Gate + Sync>(
    scope: &Scope<'s, E>,
    rt: &'s H,
    alloc: Global,
    gate: &'s G,
    done: &'s Sender<u64, Global>,
    refused: &'s AtomicBool,
    service: &mut Service<S>,
    lane: Lane<R>,
) -> Slot<R, G>
    ensures kept_service { IsSameService service.old service.new }
    ensures service { IsServiceReading (state S.Store service.old.conn) (state S.Store service.new.conn) }
    ensures goes { (db : Database) (old : Lane R)
        → IsStill db (state S.Store service.old.conn)
        → Comes R.accepted R.takes R.has_failed (G.lets gate.now) (G.shuts gate.now)
        (G.heard gate.now) service.old.source service.old.base db (state S.Store service.old.conn)
        old lane
        → IsOf R.accepted R.takes R.has_failed G.lets G.shuts G.heard gate.now service.old.source
        service.old.base db (state S.Store service.new.conn) old result }
{
    if lane.fault.is_some() {
        return Slot::Ended(lane);
    }
    let from = lane.relay.mark().max(service.base());
    let rows = match read_window(service, from) {
        Ok(rows) => rows,
        Err(fault) => return Slot::Ended(stopped(gate, lane, fault)),
    };
    if rows.is_empty() {
        return Slot::Ended(lane);
    }
    start(scope, rt, alloc, gate, done, refused, from, rows, lane)
}

/// The lane of a route's slot whose worker has come back; a slot whose lane ended stays as it is.
fn finish<H: Threads, R: Route + Drop, G: Gate>(
    rt: &H,
    slot: Slot<R, G>,
) -> Result<Lane<R>, Slot<R, G>>
    ensures back { IfOk result (Lands R.accepted R.takes R.has_failed G.lets G.shuts G.heard slot) }
    ensures ended { IfErr result (λ s. s ≡ slot) }
{
    match slot {
        Slot::Waiting(lane) => Ok(lane),
        Slot::Busy(child) => Ok(child.join(rt)),
        Slot::Ended(lane) => Err(Slot::Ended(lane)),
        Slot::Taken => Err(Slot::Taken),
    }
}

/// Lets the lane of a route's slot go on, once its worker has come back.
fn renew<'s, E, H: Threads + Wait + Sync, S: Alter, R: Route + Drop + Send + 's, G: Gate + Sync>(
    scope: &Scope<'s, E>,
    rt: &'s H,
    alloc: Global,
    gate: &'s G,
    done: &'s Sender<u64, Global>,
    refused: &'s AtomicBool,
    service: &mut Service<S>,
    slot: Slot<R, G>,
) -> Slot<R, G>
    ensures kept_service { IsSameService service.old service.new }
    ensures service { IsServiceReading (state S.Store service.old.conn) (state S.Store service.new.conn) }
    ensures goes { (db : Database) (old : Lane R)
        → IsStill db (state S.Store service.old.conn)
        → IsOf R.accepted R.takes R.has_failed G.lets G.shuts G.heard gate.now service.old.source
        service.old.base db (state S.Store service.old.conn) old slot
        → IsOf R.accepted R.takes R.has_failed G.lets G.shuts G.heard gate.now service.old.source
        service.old.base db (state S.Store service.new.conn) old result }
{
    match finish(rt, slot) {
        Ok(lane) => advance(scope, rt, alloc, gate, done, refused, service, lane),
        Err(slot) => slot,
    }
}

/// Lets the fan-out's lane at this place go on, once its worker has come back.
fn turn<'s, E, H: Threads + Wait + Sync, S: Alter, R: Route + Drop + Send + 's, G: Gate + Sync>(
    scope: &Scope<'s, E>,
    rt: &'s H,
    alloc: Global,
    gate: &'s G,
    done: &'s Sender<u64, Global>,
    refused: &'s AtomicBool,
    service: &mut Service<S>,
    place: usize,
    slots: &mut Vec<Slot<R, G>>,
)
    requires { place < length slots.old.items }
    ensures kept_service { IsSameService service.old service.new }
    ensures service { IsServiceReading (state S.Store service.old.conn) (state S.Store service.new.conn) }
    ensures many { length slots.new.items ≡ length slots.old.items }
    ensures goes { (db : Database) (olds : List (Lane R))
        → IsStill db (state S.Store service.old.conn)
        → AllAtPlaces (IsOf R.accepted R.takes R.has_failed G.lets G.shuts G.heard gate.now
        service.old.source service.old.base db (state S.Store service.old.conn))
        olds slots.old.items
        → AllAtPlaces (IsOf R.accepted R.takes R.has_failed G.lets G.shuts G.heard gate.now
        service.old.source service.old.base db (state S.Store service.new.conn))
        olds slots.new.items }
{
    let slot = mem::replace(&mut slots[place], Slot::Taken);
    slots[place] = renew(scope, rt, alloc, gate, done, refused, service, slot);
}

/// The place of the first route of a fan-out that no thread sends to, and that is to go on.
fn first_waiting<R: Route + Drop, G: Gate>(slots: &Vec<Slot<R, G>>) -> Option<usize>
    ensures { IfSome result (λ place. place < length slots.now.items) }
{
    for place in 0..slots.len() {
        match &slots[place] {
            Slot::Waiting(_) => return Some(place),
            _ => {}
        }
    }
    None
}

/// The first place whose lane to a route hasn't ended.
fn first_open<R: Route + Drop, G: Gate>(slots: &Vec<Slot<R, G>>) -> Option<usize>
    ensures some { IfSome result (λ place. place < length slots.now.items) }
    ensures none { result ≡ None → All IsEnded slots.now.items }
{
    for place in 0..slots.len() {
        match &slots[place] {
            Slot::Ended(_) => {}
            _ => return Some(place),
        }
    }
    None
}

/// Whose turn it is in a fan-out: of a lane that is here, or else of one whose worker says that it
/// has come back, for which it waits. No lane where all have ended.
fn next_place<H: Wait, R: Route + Drop, G: Gate>(
    rt: &H,
    told: &Receiver<u64, Global>,
    slots: &Vec<Slot<R, G>>,
) -> Option<usize>
    ensures some { IfSome result (λ place. place < length slots.now.items) }
    ensures none { result ≡ None → All IsEnded slots.now.items }
{
    let Some(open) = first_open(slots) else {
        return None;
    };
    if let Some(place) = first_waiting(slots) {
        return Some(place);
    }
    // A place that was told isn't believed: it says only whose worker is waited for.
    match told.recv(rt) {
        Ok(place) if place < slots.len() as u64 => Some(place as usize),
        _ => Some(open),
    }
}

/// Lets a fan-out's lanes go on, each as it comes back, until all have ended.
fn run<'s, E, H: Threads + Wait + Sync, S: Alter, R: Route + Drop + Send + 's, G: Gate + Sync>(
    scope: &Scope<'s, E>,
    rt: &'s H,
    alloc: Global,
    gate: &'s G,
    done: &'s Sender<u64, Global>,
    told: &Receiver<u64, Global>,
    refused: &'s Vec<AtomicBool>,
    service: &mut Service<S>,
    slots: &mut Vec<Slot<R, G>>,
)
    requires { length slots.old.items ≡ length refused.now.items }
    ensures kept_service { IsSameService service.old service.new }
    ensures service { IsServiceReading (state S.Store service.old.conn) (state S.Store service.new.conn) }
    ensures ended { All IsEnded slots.new.items }
    ensures goes { (db : Database) (olds : List (Lane R))
        → IsStill db (state S.Store service.old.conn)
        → AllAtPlaces (IsOf R.accepted R.takes R.has_failed G.lets G.shuts G.heard gate.now
        service.old.source service.old.base db (state S.Store service.old.conn))
        olds slots.old.items
        → AllAtPlaces (IsOf R.accepted R.takes R.has_failed G.lets G.shuts G.heard gate.now
        service.old.source service.old.base db (state S.Store service.new.conn))
        olds slots.new.items }
{
    for _ in rt.forever() {
        let Some(place) = next_place(rt, told, slots) else {
            return;
        };
        turn(
            scope,
            rt,
            alloc,
            gate,
            done,
            &refused[place],
            service,
            place,
            slots,
        );
    }
    unreachable!()
}

/// A service that stays its owner's, and the slots of the lanes that its rows go to.
#[derive(Drop)]
struct Lent<'a, S: Alter, R: Route + Drop, G: Gate> {
    service: &'a mut Service<S>,
    slots: Vec<Slot<R, G>>,
}

/// Lets a fan-out's lanes go on until all have ended, for a service lent to the threads' scope.
fn run_in_scope<'a, H: Threads + Wait + Sync, S: Alter, R: Route + Drop + Send, G: Gate + Sync>(
    rt: &H,
    alloc: Global,
    gate: &G,
    done: &Sender<u64, Global>,
    told: &Receiver<u64, Global>,
    refused: &Vec<AtomicBool>,
    lent: Lent<'a, S, R, G>,
) -> Lent<'a, S, R, G>
    requires { length lent.slots.items ≡ length refused.now.items }
    ensures same { result.service.ghost_name ≡ lent.entry.service.ghost_name }
    ensures kept_service { (result.service.now.source ≡ lent.entry.service.now.source)
        × (result.service.now.base ≡ lent.entry.service.now.base)
        × (result.service.now.last ≡ lent.entry.service.now.last) }
    ensures service { IsServiceReading (state S.Store lent.entry.service.now.conn)
        (state S.Store result.service.now.conn) }
    ensures ended { All IsEnded result.slots.items }
    ensures goes { (olds : List (Lane R))
        → AllAtPlaces (IsOf R.accepted R.takes R.has_failed G.lets G.shuts G.heard gate.now
        lent.entry.service.now.source lent.entry.service.now.base
        (state S.Store lent.entry.service.now.conn).now
        (state S.Store lent.entry.service.now.conn)) olds lent.entry.slots.items
        → AllAtPlaces (IsOf R.accepted R.takes R.has_failed G.lets G.shuts G.heard gate.now
        lent.entry.service.now.source lent.entry.service.now.base
        (state S.Store lent.entry.service.now.conn).now
        (state S.Store result.service.now.conn)) olds result.slots.items }
{
    thread::scope(
        thread::scope_env(),
        rt,
        move |scope| -> Lent<S, R, G>
            requires { IsSync H.row × IsSync G.row × IsSend R.row
                × (length lent.slots.items ≡ length refused.now.items) }
            ensures { (result.service.ghost_name ≡ lent.entry.service.ghost_name)
                × ((result.service.now.source ≡ lent.entry.service.now.source)
                × (result.service.now.base ≡ lent.entry.service.now.base)
                × (result.service.now.last ≡ lent.entry.service.now.last))
                × IsServiceReading (state S.Store lent.entry.service.now.conn)
                (state S.Store result.service.now.conn)
                × All IsEnded result.slots.items
                × ((olds : List (Lane R))
                → AllAtPlaces (IsOf R.accepted R.takes R.has_failed G.lets G.shuts G.heard gate.entry.now
                lent.entry.service.now.source lent.entry.service.now.base
                (state S.Store lent.entry.service.now.conn).now
                (state S.Store lent.entry.service.now.conn)) olds lent.entry.slots.items
                → AllAtPlaces (IsOf R.accepted R.takes R.has_failed G.lets G.shuts G.heard gate.entry.now
                lent.entry.service.now.source lent.entry.service.now.base
                (state S.Store lent.entry.service.now.conn).now
                (state S.Store result.service.now.conn)) olds result.slots.items) }
        {
            let Lent { service, mut slots } = lent;
            run(
                scope, rt, alloc, gate, done, told, refused, service, &mut slots,
            );
            Lent { service, slots }
        },
    )
}

/// Carries a fan-out's lanes over the service's rows until each has ended, none awaiting another.
pub(super) fn run_slots<H: Threads + Wait + Sync, S: Alter, R: Route + Drop + Send, G: Gate + Sync>(
    rt: &H,
    alloc: Global,
    gate: &G,
    done: &Sender<u64, Global>,
    told: &Receiver<u64, Global>,
    refused: &Vec<AtomicBool>,
    service: &mut Service<S>,
    slots: Vec<Slot<R, G>>,
) -> Vec<Slot<R, G>>
    requires { length slots.items ≡ length refused.now.items }
    ensures kept_service { IsSameService service.old service.new }
    ensures service { IsServiceReading (state S.Store service.old.conn) (state S.Store service.new.conn) }
    ensures ended { All IsEnded result.items }
    ensures goes { (olds : List (Lane R))
        → AllAtPlaces (IsOf R.accepted R.takes R.has_failed G.lets G.shuts G.heard gate.now
        service.old.source service.old.base (state S.Store service.old.conn).now
        (state S.Store service.old.conn)) olds slots.items
        → AllAtPlaces (IsOf R.accepted R.takes R.has_failed G.lets G.shuts G.heard gate.now
        service.old.source service.old.base (state S.Store service.old.conn).now
        (state S.Store service.new.conn)) olds result.items }
{
    let lent = run_in_scope(
        rt,
        alloc,
        gate,
        done,
        told,
        refused,
        Lent { service, slots },
    );
    let Lent { service, slots } = lent;
    keep(service);
    slots
}

/// Hands the service of a fan-out back as it is.
fn keep<S: Alter>(service: &mut Service<S>)
    ensures { service.new ≡ service.old }
{
    let _ = service;
}
