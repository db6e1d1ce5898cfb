//! Where rows go.

ghost use Rattle.std.specs.Prelude.{List, OnOk, OnErr};
ghost use Rattle.attributes.specs.Event.{EventValue};
ghost use Rattle.relay.specs.Route.{AreIn, AreFromEither};

use attributes::Batch;

/// The route didn't take the batch, or not all of it.
#[derive(Clone, Copy, Debug, Drop)]
pub struct RouteFailed;

/// Takes batches of events; a batch may come again. Its meaning is a list of accepted events, and
/// when its failures rose.
pub trait Route {
    ghost accepted: { Self → List EventValue };

    ghost has_failed: { Self → Self → Type 0 };

    // What a send of these events that was answered did, told by the route itself.
    ghost takes: { Self → List EventValue → Self → Type 0 };

    /// The route takes a batch. After `Ok` each of its events is accepted; after `Err` the failures
    /// rose. Nothing that was accepted is lost, and what is new is of the batch.
    fn send(&mut self, batch: &Batch) -> Result<(), RouteFailed>
        ensures accepted { OnOk result (AreIn batch.now (accepted self.new)) }
        ensures took { OnOk result (takes self.old batch.now self.new) }
        ensures failed { OnErr result (has_failed self.old self.new) }
        ensures kept { AreIn (accepted self.old) (accepted self.new) }
        ensures new { AreFromEither (accepted self.new) (accepted self.old) batch.now };
}
