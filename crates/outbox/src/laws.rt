//! Laws of services, each as the contract of a function that does nothing.

ghost use Rattle.outbox.specs.Law.{OrdersHaveAStatus, StopsLeaveANewServiceOrNone, StopsLeaveAService};

use database_layout::laws::trees_tell_tables;

/// A command may be stopped at any write: then the clause `crash` of [`crate::Service::place`],
/// `ship` and `cancel` tells what is left. The file that is opened again has the service as it was
/// before the command, or with the command accepted, and that is the service that
/// [`crate::Service::adopt`] finds. Where the call had answered, the clause `settled` leaves the
/// latter alone.
pub fn stops_leave_a_service()
    ensures { StopsLeaveAService }
{
    trees_tell_tables();
}

/// [`crate::Service::create`] and [`crate::Service::open`] may be stopped at any write: then their
/// clauses on a crash tell what is left. The file that is opened again is as it was before, and
/// `open` makes the service then, or it has the service with the source and base that were given
/// and no commands, which `open` finds. Where the call had answered, the clause `settled` leaves
/// the latter alone.
pub fn stops_leave_a_new_service_or_none()
    ensures { StopsLeaveANewServiceOrNone }
{
    trees_tell_tables();
}

/// The orders of a service, of which [`crate::Service::orders`] tells how many, are those that have
/// a status: each was placed once.
pub fn orders_have_a_status()
    ensures { OrdersHaveAStatus }
{}
