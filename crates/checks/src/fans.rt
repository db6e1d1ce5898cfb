//! What no contract says of a fan-out, whose threads no row has: that every row gets to every route, that routes are sent to
//! at the same time, that the others go on where one fails, and that the gate is asked.

use crate::calls::Calls;
use crate::fixture::{create, stock};
use attributes::Batch;
use outbox::Service;
use relay::{MemoryRoute, Relay, RelayFault, Route, RouteFailed};
use relay_fan::{End, FanOut, fan_out};
use site::{Gate, GateShut, Wide};
use sqlite::MemStore;
use std::alloc::Global;
use std::process::Abort;
use std::sync::Wait;
use std::sync::atomic::{AtomicU64, Ordering};
use std::thread;
use std::thread::Threads;

/// What a gate waits for, or where it is shut.
#[derive(Clone, Copy)]
enum Rule {
    /// Workers 0 and 1 wait for one another before their first calls.
    Together,
    /// It is shut before the second call of worker 1.
    ShutAtSecond,
    /// Worker 0 is held before its first call until the others have made so many calls in all.
    FirstHeld(u64),
}

/// Follows a rule, and shuts where what it waits for doesn't come. It counts the workers that have
/// come where they wait for one another, the calls that were made where it is shut, and those of
/// the others where it holds one.
#[derive(Drop)]
struct Ruled {
    rule: Rule,
    counted: AtomicU64,
}

impl Ruled {
    /// With nothing counted yet.
    fn by(rule: Rule) -> Ruled {
        Ruled {
            rule,
            counted: AtomicU64::new(0),
        }
    }

    /// Waits until so many were counted.
    fn wait(&self, wanted: u64) -> Result<(), GateShut> {
        for _ in 0..100_000_000u64 {
            if self.counted.load(Ordering::SeqCst) >= wanted {
                return Ok(());
            }
            thread::yield_now();
        }
        Err(GateShut)
    }
}

impl Gate for Ruled {
    ghost use Rattle.std.specs.Prelude.{⊤};

    ghost lets = { λ _ _ _. ⊤ };

    ghost shuts = { λ _ _ _. ⊤ };

    ghost heard = { λ _ _ _. ⊤ };

    fn before(&self, worker: u64, call: u64) -> Result<(), GateShut> {
        match self.rule {
            Rule::Together if worker <= 1 && call == 1 => {
                self.counted.fetch_add(1, Ordering::SeqCst);
                self.wait(2)
            }
            Rule::ShutAtSecond if worker == 1 && call == 2 => Err(GateShut),
            Rule::FirstHeld(wanted) if worker == 0 && call == 1 => self.wait(wanted),
            _ => Ok(()),
        }
    }

    fn after(&self, worker: u64, _call: u64) {
        let is_counted = match self.rule {
            Rule::Together => false,
            Rule::ShutAtSecond => true,
            Rule::FirstHeld(_) => worker != 0,
        };
        if is_counted {
            self.counted.fetch_add(1, Ordering::SeqCst);
        }
    }
}

/// Tells the calls of two workers to their counts, and those of any other to a third.
#[derive(Drop)]
struct Heard<'a> {
    first: &'a Calls,
    second: &'a Calls,
    others: Calls,
}

impl<'a> Heard<'a> {
    /// The calls of a worker, or of all that aren't there.
    fn of(&self, worker: u64) -> &Calls {
        match worker {
            0 => self.first,
            1 => self.second,
            _ => &self.others,
        }
    }
}

impl<'a> Gate for Heard<'a> {
    ghost use Rattle.std.specs.Prelude.{⊤};

    ghost lets = { λ _ _ _. ⊤ };

    ghost shuts = { λ _ _ _. ⊤ };

    ghost heard = { λ _ _ _. ⊤ };

    fn before(&self, worker: u64, call: u64) -> Result<(), GateShut> {
        self.of(worker).ask(call);
        Ok(())
    }

    fn after(&self, worker: u64, call: u64) {
        self.of(worker).tell(call);
    }
}

/// A route that fails at the send with this number from 1 on, or never if it is 0. It notes what it
/// is sent among the calls of its worker, where these are known.
#[derive(Drop)]
struct FailsOnce<'a> {
    route: MemoryRoute,
    send: u64,
    calls: Option<&'a Calls>,
}

impl<'a> Route for FailsOnce<'a> {
    ghost use Rattle.std.specs.Prelude.{◌≡◌, ◌⊎◌, ◌++◌};
    ghost use Rattle.relay.specs.Route.{CountRises};

    ghost accepted = { λ r. r.route.events };

    ghost has_failed = { λ old new. ((old.send ≡ 1) × (new.send ≡ 0))
        ⊎ CountRises old.route.failures new.route.failures };

    ghost takes = { λ old batch new.
        new.route ≡ record old.route { events = old.route.events ++ batch } };

    fn send(&mut self, batch: &Batch) -> Result<(), RouteFailed> {
        if let Some(calls) = self.calls {
            calls.send();
        }
        if self.send != 1 {
            self.send = self.send.saturating_sub(1);
            return self.route.send(batch);
        }
        self.send = 0;
        Err(RouteFailed)
    }
}

/// Whether a fan-out ended so: the ends, and the marks and accepted rows after it.
fn is_ended(out: &FanOut<FailsOnce<'_>>, relays: &[Relay], want: &[(End, u64, u64)]) -> bool {
    if out.ends.len() != want.len()
        || relays.len() != want.len()
        || out.routes.len() != want.len()
    {
        return false;
    }
    for i in 0..want.len() {
        let accepted = out.routes[i].route.accepted().len();
        if (out.ends[i], relays[i].mark(), accepted) != want[i] {
            return false;
        }
    }
    true
}

/// Adds relays of the sites from 0 on, with the marks of these, and answers whether it did.
fn add_relays(relays: &mut Vec<Relay>, from: &[(u64, u64)]) -> bool {
    for (mark, _) in from {
        let site = u32::try_from(relays.len()).unwrap_or(0);
        if relays.push(Relay::at(site, *mark)).is_err() {
            return false;
        }
    }
    true
}

/// Adds a route that fails at that send, and answers whether it did.
fn add_route<'a>(
    alloc: Global,
    routes: &mut Vec<FailsOnce<'a>>,
    send: u64,
    calls: Option<&'a Calls>,
) -> bool {
    let route = MemoryRoute::empty(alloc);
    routes.push(FailsOnce { route, send, calls }).is_ok()
}

/// Adds routes that fail at the sends of these, and answers whether it did.
fn add_routes(alloc: Global, routes: &mut Vec<FailsOnce<'_>>, from: &[(u64, u64)]) -> bool {
    for (_, send) in from {
        if !add_route(alloc, routes, *send, None) {
            return false;
        }
    }
    true
}

/// Whether relays to routes end so, with these marks and so many accepted rows.
fn relays_end_as<R: AllocGlobal + Threads + Wait + Sync, G: Gate + Sync>(
    rt: &R,
    service: &mut Service<MemStore>,
    gate: &G,
    relays: &mut Vec<Relay>,
    routes: Vec<FailsOnce<'_>>,
    want: &[(End, u64, u64)],
) -> bool {
    if routes.is_empty() || routes.len() > 16 || relays.len() != routes.len() {
        return false;
    }
    let out = fan_out(rt, rt.alloc(), service, relays, routes, gate);
    is_ended(&out, relays.as_slice(), want)
}

/// Whether relays with these marks, to routes that fail at these sends, end so, with these marks
/// and so many accepted rows.
fn ends_as<R: AllocGlobal + Threads + Wait + Sync, G: Gate + Sync>(
    rt: &R,
    service: &mut Service<MemStore>,
    gate: &G,
    from: &[(u64, u64)],
    want: &[(End, u64, u64)],
) -> bool {
    let mut relays = Vec::new(rt.alloc());
    let mut routes = Vec::new(rt.alloc());
    add_relays(&mut relays, from)
        && add_routes(rt.alloc(), &mut routes, from)
        && relays_end_as(rt, service, gate, &mut relays, routes, want)
}

/// Whether every row goes to two routes.
fn goes_to_both<R: AllocGlobal + Threads + Wait + Sync, G: Gate + Sync>(
    rt: &R,
    service: &mut Service<MemStore>,
    gate: &G,
    count: u64,
) -> bool {
    let want = [(End::Done, count, count), (End::Done, count, count)];
    ends_as(rt, service, gate, &[(0, 0), (0, 0)], &want)
}

/// Whether three routes get every row before the first one gets any, which is more than a window.
fn goes_past_the_first<R: AllocGlobal + Threads + Wait + Sync>(
    rt: &R,
    service: &mut Service<MemStore>,
) -> bool {
    let gate = Ruled::by(Rule::FirstHeld(36));
    let all = (End::Done, 1_150, 1_150);
    let from = [(0, 0), (0, 0), (0, 0), (0, 0)];
    ends_as(rt, service, &gate, &from, &[all, all, all, all])
}

/// Whether two routes get every row where the first one fails at its second send.
fn goes_past_a_failed<R: AllocGlobal + Threads + Wait + Sync>(
    rt: &R,
    service: &mut Service<MemStore>,
) -> bool {
    let failed = End::Failed(RelayFault::RouteFailed);
    let want = [
        (failed, 100, 100),
        (End::Done, 250, 220),
        (End::Done, 300, 0),
    ];
    ends_as(rt, service, &Wide, &[(0, 2), (30, 0), (300, 0)], &want)
}

/// Whether a route gets every row where the gate is shut to the other one, of four calls in all.
fn goes_past_a_shut<R: AllocGlobal + Threads + Wait + Sync>(
    rt: &R,
    service: &mut Service<MemStore>,
) -> bool {
    let gate = Ruled::by(Rule::ShutAtSecond);
    let shut = End::Failed(RelayFault::GateShut);
    let want = [(End::Done, 250, 250), (shut, 100, 100)];
    ends_as(rt, service, &gate, &[(0, 0), (0, 0)], &want)
        && gate.counted.load(Ordering::SeqCst) == 4
}

/// Whether two routes are sent to, the second of which fails at its second send, past a gate that
/// hears of no other worker.
fn goes_past_one_that_hears<R: AllocGlobal + Threads + Wait + Sync>(
    rt: &R,
    service: &mut Service<MemStore>,
    first: &Calls,
    second: &Calls,
) -> bool {
    let gate = Heard {
        first,
        second,
        others: Calls::none(),
    };
    let mut relays = Vec::new(rt.alloc());
    let mut routes = Vec::new(rt.alloc());
    let failed = End::Failed(RelayFault::RouteFailed);
    let want = [(End::Done, 250, 250), (failed, 110, 100)];
    add_relays(&mut relays, &[(0, 0), (10, 0)])
        && add_route(rt.alloc(), &mut routes, 0, Some(first))
        && add_route(rt.alloc(), &mut routes, 2, Some(second))
        && relays_end_as(rt, service, &gate, &mut relays, routes, &want)
        && gate.others.are(0)
}

/// Whether a gate is asked before each send of a route and told behind it: three of one worker, and
/// two of the other.
fn tells_each_call<R: AllocGlobal + Threads + Wait + Sync>(
    rt: &R,
    service: &mut Service<MemStore>,
) -> bool {
    let first = Calls::none();
    let second = Calls::none();
    goes_past_one_that_hears(rt, service, &first, &second) && first.are(3) && second.are(2)
}

/// Whether marks at and behind the one row of a service with the base 5 are done.
fn is_done_behind<R: AllocGlobal + Threads + Wait + Sync>(
    rt: &R,
    service: &mut Service<MemStore>,
) -> bool {
    let want = [
        (End::Done, 6, 1),
        (End::Done, 6, 1),
        (End::Done, 6, 0),
        (End::Done, 9, 0),
    ];
    let from = [(0, 0), (5, 0), (6, 0), (9, 0)];
    ends_as(rt, service, &Wide, &from, &want)
}

/// Whether marks of a service without rows are done.
fn is_done_without<R: AllocGlobal + Threads + Wait + Sync>(
    rt: &R,
    service: &mut Service<MemStore>,
) -> bool {
    let want = [(End::Done, 0, 0), (End::Done, 7, 0)];
    ends_as(rt, service, &Wide, &[(0, 0), (7, 0)], &want)
}

/// What a fan-out is to do.
#[derive(Clone, Copy)]
enum Task {
    GoToBoth,
    GoTogether,
    GoPastTheFirst,
    GoPastOthers,
    TellEachCall,
    BeDoneWithout,
    BeDoneBehind,
}

/// Whether a fan-out of a service does so.
fn does<R: AllocGlobal + Threads + Wait + Sync>(
    rt: &R,
    service: &mut Service<MemStore>,
    task: Task,
) -> bool {
    match task {
        Task::GoToBoth => goes_to_both(rt, service, &Wide, 2),
        Task::GoTogether => goes_to_both(rt, service, &Ruled::by(Rule::Together), 150),
        Task::GoPastTheFirst => goes_past_the_first(rt, service),
        Task::GoPastOthers => goes_past_a_failed(rt, service) && goes_past_a_shut(rt, service),
        Task::TellEachCall => tells_each_call(rt, service),
        Task::BeDoneWithout => is_done_without(rt, service),
        Task::BeDoneBehind => is_done_behind(rt, service),
    }
}

/// Whether a fan-out of a service with this base and so many placed orders does so. All tests own
/// their service here, at one end.
fn is_done<R: AllocGlobal + Threads + Wait + Abort + Sync>(
    rt: &R,
    base: u64,
    count: u64,
    task: Task,
) -> bool {
    let mut service = create(rt, base);
    stock(rt, &mut service, count);
    does(rt, &mut service, task)
}

// A fan-out begins threads, which no row does.
#[test]
fn every_row_goes_to_both_routes(rt: HostRuntime) {
    assert!(rt; is_done(&rt, 0, 2, Task::GoToBoth));
}

// Its gate holds each of two threads until the other has come.
#[test]
fn two_routes_are_sent_to_at_the_same_time(rt: HostRuntime) {
    assert!(rt; is_done(&rt, 0, 150, Task::GoTogether));
}

// Its gate holds one thread until the others are done.
#[test]
fn no_route_waits_for_another(rt: HostRuntime) {
    assert!(rt; is_done(&rt, 0, 1_150, Task::GoPastTheFirst));
}

// A fan-out begins threads; a gate of the test is shut to one, and counts the calls of both.
#[test]
fn the_others_go_on_where_one_stops(rt: HostRuntime) {
    assert!(rt; is_done(&rt, 0, 250, Task::GoPastOthers));
}

// A gate of the test notes what threads ask and tell it, and what their routes are sent.
#[test]
fn the_gate_is_asked_before_each_send_and_told_behind_it(rt: HostRuntime) {
    assert!(rt; is_done(&rt, 0, 250, Task::TellEachCall));
}

// A fan-out begins threads, which no row does.
#[test]
fn marks_without_rows_after_them_are_done(rt: HostRuntime) {
    let is_done_twice = is_done(&rt, 0, 0, Task::BeDoneWithout)
        && is_done(&rt, 5, 1, Task::BeDoneBehind);
    assert!(rt; is_done_twice);
}
