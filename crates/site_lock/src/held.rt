//! The site as the object that passes take turns with.

use attributes::Batch;
use site::{Call, Site};
use turn_lock::Machine;

/// The site in its slot. Its meaning is the site machine: a list of arrivals, and what calls do to
/// it.
#[derive(Drop)]
pub(crate) struct Held {
    pub(crate) site: Site,
}

impl Machine<Batch, Call> for Held {
    ghost use Rattle.std.specs.Prelude.{[]};
    ghost use Rattle.site.specs.Machine.{HasRightReply, arrivals_after};
    ghost use Rattle.site_lock.specs.Seat.{arrivals_of};

    ghost state = { arrivals_of };

    ghost next = { arrivals_after };

    ghost fits = { HasRightReply };

    ghost blank = { [] };
}
