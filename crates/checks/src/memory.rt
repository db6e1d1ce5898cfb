//! What the contract of a command says of a service in memory. A disk there gives back what was
//! written, so that the premise of the clauses holds and none is left.

ghost use Rattle.std.specs.Prelude.{◌≤◌};
ghost use Rattle.outbox.specs.Call.{CommandEffect};
ghost use Rattle.outbox.specs.declared.status.Status.TheVariants.{Placed};
ghost use Rattle.sqlite.specs.Held.{state};
ghost use Rattle.sqlite.specs.Steps.{over_memory};
ghost use Rattle.outbox.specs.Order.{IsOrder, IsShortTime};

use crate::fixture::{create, time};
use attributes::{Moment, Sequenced};
use outbox::{OutboxFault, Service};
use sqlite::MemStore;
use std::process::Abort;

/// [`Service::place`], whose effect is promised without a premise.
fn place(service: &mut Service<MemStore>, order: u64, at: &Moment) -> Result<Sequenced, OutboxFault>
    requires order { IsOrder order }
    requires short { IsShortTime at.now }
    ensures { CommandEffect (record { status = Placed; order = order; at = at.now }) service.old
        (state over_memory service.old.conn) (state over_memory service.new.conn) result }
{
    service.place(order, at)
}

/// Whether the first order of a service is accepted, and refused when it is placed again.
fn is_placed_once(service: &mut Service<MemStore>, at: &Moment) -> bool {
    if at.as_str().len() > 64 {
        return false;
    }
    place(service, 7, at).is_ok() && matches!(place(service, 7, at), Err(OutboxFault::OrderExists))
}

/// Whether the first order of a new service is accepted once.
fn is_placed_by_one<R: AllocGlobal + Abort>(rt: &R) -> bool {
    let at = time(rt);
    let mut service = create(rt, 0);
    is_placed_once(&mut service, &at)
}

// It states a contract of its own: that the effect is promised without a premise.
#[test]
fn a_service_in_memory_needs_no_premise(rt: HostRuntime) {
    assert!(rt; is_placed_by_one(&rt));
}
