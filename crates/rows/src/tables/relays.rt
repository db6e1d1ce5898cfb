//! Relays, and routes that fail.

use crate::said::line;
use crate::shelf::Shelf;
use crate::tables::acts::{End, Tried, done, refused};
use crate::words::number_of;
use attributes::Batch;
use outbox::{NotMade, OutboxFault, Service};
use relay::{Job, MemoryRoute, Outcome, Relay, RelayFault, Route, RouteFailed, carry};
use sqlite::{Alter, Connection};
use std::alloc::Global;

/// The faults of a relay, in the order of their numbers.
static FAULTS: [RelayFault; 6] = [
    RelayFault::OutOfMemory,
    RelayFault::RouteFailed,
    RelayFault::Stranger,
    RelayFault::Store,
    RelayFault::NoThread,
    RelayFault::GateShut,
];

/// `faults relay`: each by its number and name.
pub fn faults(out: &mut String) -> bool {
    for fault in &FAULTS {
        let (number, fault) = (fault.number(), *fault);
        if write!(out, "{number} {fault}\n").is_err() {
            return false;
        }
    }
    true
}

/// A route that fails once, at the send with this number from 1 on, or never if it is 0. If it is
/// late, the rows of that send were accepted, and the answer is what got lost.
#[derive(Drop)]
pub struct FailsOnce {
    pub route: MemoryRoute,
    send: u64,
    is_late: bool,
}

impl Route for FailsOnce {
    ghost use Rattle.std.specs.Prelude.{◌≡◌, ◌⊎◌, ◌++◌};
    ghost use Rattle.relay.specs.Route.{CountRises};

    ghost accepted = { λ r. r.route.events };

    ghost has_failed = { λ old new. ((old.send ≡ 1) × (new.send ≡ 0))
        ⊎ CountRises old.route.failures new.route.failures };

    ghost takes = { λ old batch new.
        new.route ≡ record old.route { events = old.route.events ++ batch } };

    fn send(&mut self, batch: &Batch) -> Result<(), RouteFailed> {
        if self.send != 1 {
            self.send = self.send.saturating_sub(1);
            return self.route.send(batch);
        }
        self.send = 0;
        if self.is_late {
            self.route.send(batch)?;
        }
        Err(RouteFailed)
    }
}

/// A route that accepted nothing.
pub fn failing(alloc: Global, send: u64, is_late: bool) -> FailsOnce {
    FailsOnce {
        route: MemoryRoute::empty(alloc),
        send,
        is_late,
    }
}

/// `relay NAME SITE MARK`: a relay to a site whose route has accepted all rows up to the mark.
pub fn begin(alloc: Global, relays: &mut Shelf<Relay>, words: &[&str]) -> bool {
    let [name, site, mark] = words else {
        return false;
    };
    match (site.parse::<u32>(), number_of(mark)) {
        (Ok(site), Some(mark)) => relays.put(alloc, name, Relay::at(site, mark)),
        _ => false,
    }
}

/// `route NAME SEND early|late`: a route that fails at that send, before it accepted the rows or
/// behind that; at none where it is 0.
pub fn begin_route(alloc: Global, routes: &mut Shelf<FailsOnce>, words: &[&str]) -> bool {
    let [name, send, when] = words else {
        return false;
    };
    match number_of(send) {
        Some(send) => routes.put(alloc, name, failing(alloc, send, *when == "late")),
        None => false,
    }
}

/// Adds the number of a row, as the first of a span of numbers that rise by one.
fn add_first(out: &mut String, place: u64, number: u64) -> bool {
    (place == 0 || out.push(' ').is_ok()) && write!(out, "{number}").is_ok()
}

/// Adds the spans of numbers of events, one after another.
fn add_spans(out: &mut String, events: &Batch) -> bool {
    let mut first = 0u64;
    let mut last = 0u64;
    for place in 0..events.len() {
        let number = events.at(place).number().number();
        let is_next = place > 0 && number == last.saturating_add(1);
        if !is_next {
            let is_closed = place == 0 || first == last || write!(out, "-{last}").is_ok();
            if !is_closed || !add_first(out, place, number) {
                return false;
            }
            first = number;
        }
        last = number;
    }
    first == last || write!(out, "-{last}").is_ok()
}

/// `accepted ROUTE`: the numbers of the rows that a route accepted, span after span.
pub fn accepted(routes: &Shelf<FailsOnce>, name: &str, out: &mut String) -> bool {
    match routes.get(name) {
        Some(route) => {
            let events = route.route.accepted();
            if events.is_empty() {
                return line(out, "none");
            }
            add_spans(out, events) && line(out, "")
        }
        None => false,
    }
}

/// Adds what a relay's call came to, and its mark then; want of memory has it made again.
fn tell<T>(ended: &Result<T, RelayFault>, word: &str, relay: &Relay, out: &mut String) -> End {
    let mark = relay.mark();
    match ended {
        Ok(_) => done(write!(out, "{word}, at {mark}\n").is_ok()),
        Err(RelayFault::OutOfMemory) => End::Untold,
        Err(fault) => refused(write!(out, "{fault}, at {mark}\n").is_ok()),
    }
}

/// A step of a relay over a service, and the mark behind it. A route that failed for want of memory
/// is sent to again.
fn step<S: Alter>(
    service: &mut Service<S>,
    relay: &mut Relay,
    route: &mut FailsOnce,
    out: &mut String,
) -> End {
    let failures = route.route.failures();
    let answer = relay.step(service, route);
    if route.route.failures() != failures {
        return End::Untold;
    }
    match &answer {
        Ok(sent) => {
            if write!(out, "sent {sent}").is_err() {
                return End::Untold;
            }
        }
        Err(_) => {}
    }
    tell(&answer, "", relay, out)
}

/// The next rows of a relay, carried as a job to a route that has accepted nothing.
fn carried(alloc: Global, job: Option<Job>) -> Option<Outcome> {
    Some(carry(job?, &mut MemoryRoute::empty(alloc)))
}

/// Carries the next rows of a relay as a job, and settles what became of it.
fn carry_next<S: Alter>(
    alloc: Global,
    service: &mut Service<S>,
    relay: &mut Relay,
    out: &mut String,
) -> End {
    match relay.job(service) {
        Ok(job) => match carried(alloc, job) {
            Some(outcome) => settle(relay, outcome, out),
            None => done(line(out, "no rows")),
        },
        Err(_) => End::Untold,
    }
}

/// A relay settles an outcome.
fn settle(relay: &mut Relay, outcome: Outcome, out: &mut String) -> End {
    if outcome.first > outcome.last {
        return End::Untold;
    }
    let ended = relay.settle(outcome);
    tell(&ended, "settled", relay, out)
}

/// `settle RELAY SITE FIRST LAST sent|lost`: settles the outcome of a job with these rows.
pub fn settle_words(relays: &mut Shelf<Relay>, words: &[&str], out: &mut String) -> bool {
    let [name, site, first, last, became] = words else {
        return false;
    };
    let Some(relay) = relays.get_mut(name) else {
        return false;
    };
    match (site.parse::<u32>(), number_of(first), number_of(last)) {
        (Ok(site), Some(first), Some(last)) => {
            let sent = *became == "sent";
            let outcome = Outcome {
                site,
                first,
                last,
                sent,
            };
            settle(relay, outcome, out) != End::Untold
        }
        _ => false,
    }
}

/// `site RELAY`: the number of its site.
pub fn site(relays: &Shelf<Relay>, name: &str, out: &mut String) -> bool {
    match relays.get(name) {
        Some(relay) => {
            let site = relay.site();
            write!(out, "{site}\n").is_ok()
        }
        None => false,
    }
}

/// A step of a relay over the service that a database has; without a route its next rows are
/// carried as a job.
pub fn stepped<S: Alter + Drop>(
    alloc: Global,
    conn: Connection<S>,
    relay: &mut Relay,
    route: Option<&mut FailsOnce>,
    out: &mut String,
) -> Tried<S> {
    match Service::adopt(alloc, conn) {
        Ok(mut service) => {
            let end = match route {
                Some(route) => step(&mut service, relay, route, out),
                None => carry_next(alloc, &mut service, relay, out),
            };
            let conn = service.into_connection();
            Tried { conn, end }
        }
        Err(NotMade { conn, fault }) => {
            let is_told = fault != OutboxFault::OutOfMemory && write!(out, "{fault}\n").is_ok();
            let end = refused(is_told);
            Tried { conn, end }
        }
    }
}
