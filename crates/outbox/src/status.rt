//! The statuses of orders.

ghost use Rattle.std.specs.Prelude.{◌≡◌, ◌≢◌, ◌≤◌, ℕ, length, pos, IfSome, IfNone};
ghost use Rattle.outbox.specs.Order.{placed_by, status_fault};
ghost use Rattle.outbox.specs.Service.{code};
ghost use Rattle.outbox.specs.declared.status.Status.{Status};

use crate::fault::OutboxFault;

/// The status of an order, and the command that gives it. An order is placed, and then shipped or
/// cancelled, which are final.
#[derive(Clone, Copy, PartialEq, Eq, Debug)]
pub enum Status {
    Placed,
    Shipped,
    Cancelled,
}

impl Status {
    /// The number of an order's status in the outbox's tables.
    pub(crate) fn code(self) -> i64
        ensures { result ≡ pos (code self) }
    {
        match self {
            Status::Placed => 1,
            Status::Shipped => 2,
            Status::Cancelled => 3,
        }
    }

    /// The order's status with this number in the outbox's tables, where there is one.
    pub(crate) fn of_code(number: u64) -> Option<Status>
        ensures some { IfSome result (λ s. number ≡ code s) }
        ensures none { IfNone result ((s : Status) → number ≢ code s) }
    {
        match number {
            1 => Some(Status::Placed),
            2 => Some(Status::Shipped),
            3 => Some(Status::Cancelled),
            _ => None,
        }
    }

    /// How many orders a command with this status places.
    pub(crate) fn placed(self) -> u64
        ensures few { result ≤ 1 }
        ensures placed { (order : ℕ) → result ≡ length (placed_by self order) }
    {
        match self {
            Status::Placed => 1,
            Status::Shipped => 0,
            Status::Cancelled => 0,
        }
    }

    /// Why an order that had this status, or none, can't get this one.
    pub(crate) fn fault_after(self, old: Option<Status>) -> Option<OutboxFault>
        ensures { result ≡ status_fault self old }
    {
        match (self, old) {
            (Status::Placed, None) => None,
            (Status::Placed, Some(_)) => Some(OutboxFault::OrderExists),
            (_, None) => Some(OutboxFault::NoOrder),
            (_, Some(Status::Placed)) => None,
            (_, Some(_)) => Some(OutboxFault::WrongState),
        }
    }
}
