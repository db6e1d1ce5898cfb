//! A route into memory.

ghost use Rattle.std.specs.Prelude.{◌≡◌, ◌++◌, ◌∷◌, [], OnOk, OnErr};
ghost use Rattle.relay.specs.Route.{AreIn, AreFromEither, CountRises};

use crate::route::{Route, RouteFailed};
use attributes::{Batch, Sequenced};
use std::alloc::{AllocError, Global};
use std::marker::Model;

/// A route that appends what it is sent to a list. It fails for want of memory alone, so whoever
/// finds that it failed (`failures`) may tell want of memory.
#[derive(Drop)]
pub struct MemoryRoute {
    events: Batch,
    failures: u64,
}

impl Model for MemoryRoute {
    ghost use Rattle.relay.specs.Route.{KeptRoute};
    ghost use Rattle.relay.specs.Relay.{kept_route_code};

    ghost Value = { KeptRoute };

    ghost coded = { kept_route_code };

    ghost view = { λ r. record { events = r.events; failures = r.failures } };
}

/// Appends a copy of an event to what a memory route accepted.
fn append(events: &mut Batch, event: &Sequenced) -> Result<(), AllocError>
    ensures ok { OnOk result (events.new ≡ events.old ++ event.now ∷ []) }
    ensures err { OnErr result (events.new ≡ events.old) }
{
    let copy = event.copy()?;
    events.push(copy)?;
    Ok(())
}

/// Appends copies of a route's new events, up to the first that memory is refused for.
fn append_all(events: &mut Batch, batch: &Batch) -> Result<(), AllocError>
    ensures appended { OnOk result (events.new ≡ events.old ++ batch.now) }
    ensures accepted { OnOk result (AreIn batch.now events.new) }
    ensures kept { AreIn events.old events.new }
    ensures new { AreFromEither events.new events.old batch.now }
{
    for i in 0..batch.len() {
        append(events, batch.at(i))?;
    }
    Ok(())
}

impl MemoryRoute {
    /// A route that has accepted nothing. It takes no memory.
    pub fn empty(alloc: Global) -> MemoryRoute
        ensures { result ≡ record { events = []; failures = 0 } }
    {
        MemoryRoute {
            events: Batch::empty(alloc),
            failures: 0,
        }
    }

    /// The events that the route accepted, in the order in which they came, with their repeats.
    pub fn accepted(&self) -> &Batch
        ensures { result.now ≡ self.now.events }
    {
        &self.events
    }

    /// How many of the route's sends failed, each for want of memory; 2^64-1 for that or more.
    pub fn failures(&self) -> u64
        ensures { result ≡ self.now.failures }
    {
        self.failures
    }
}

impl Route for MemoryRoute {
    ghost use Rattle.relay.specs.Route.{CountRises};

    ghost accepted = { λ r. r.events };

    ghost has_failed = { λ old new. CountRises old.failures new.failures };

    // Exactly the batch is appended, each event once and in its order.
    ghost takes = { λ old batch new. new ≡ record old { events = old.events ++ batch } };

    fn send(&mut self, batch: &Batch) -> Result<(), RouteFailed> {
        match append_all(&mut self.events, batch) {
            Ok(()) => Ok(()),
            Err(AllocError) => {
                self.failures = self.failures.saturating_add(1);
                Err(RouteFailed)
            }
        }
    }
}
