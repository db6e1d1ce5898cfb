//! What a thread uses a shared site with.

ghost use Rattle.site_lock.specs.Pass.{IsTruePass};

use crate::held::Held;
use attributes::Batch;
use site::Call;
use std::marker::Model;

/// One caller of a shared site. It knows how much of the history this caller has seen and which
/// calls are its own, in the proofs alone: it has no bytes. Contracts see its shared site, its
/// number, how often it was split, the arrivals that the site opened with, and those two lists.
#[derive(Drop)]
pub struct Pass {
    pub(crate) seat: turn_lock::Pass<Held, Batch, Call>,
}

impl Model for Pass {
    ghost use Rattle.site_lock.specs.Pass.{ShownPass};
    ghost use Rattle.site_lock.specs.PassCode.{shown_pass_code};
    ghost use Rattle.site_lock.specs.Seat.{IsAtRest, shown};

    ghost Value = { ShownPass };

    ghost coded = { shown_pass_code };

    ghost view = { λ p. shown p.seat.table_id p.seat.me.0 };

    ghost invariant = { λ p. IsAtRest p.seat.me };
}

impl Pass {
    /// Tells what holds of each pass of the shared site: its history is that of a site used by one
    /// thread, with just its own calls under its number, and the arrivals after it are there once
    /// each. It does nothing.
    pub fn stands(&self)
        ensures { IsTruePass self.now }
    {
        let _ = &self.seat;
    }
}
