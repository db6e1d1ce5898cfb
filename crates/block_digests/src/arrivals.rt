//! Where events stand that came one after another.

ghost use Rattle.std.specs.Prelude.{◌≡◌, ℕ, List, slice_get, option_copied};
ghost use Rattle.attributes.specs.Event.{EventValue};

use attributes::{Batch, Sequenced};
use inbox::Inbox;

/// Events in the order in which they came.
pub trait Arrivals {
    ghost arrivals: { Self → List EventValue };

    /// For block digests: the event at a place of those that came, from 0 on, if there is one.
    fn arrival(&self, place: u64) -> Option<&Sequenced>
        ensures { option_copied result ≡ slice_get (arrivals self.now) place };
}

impl Arrivals for Inbox {
    ghost arrivals = { λ inbox. inbox.arrivals };

    fn arrival(&self, place: u64) -> Option<&Sequenced> {
        if place < self.arrived() {
            Some(self.arrived_at(place))
        } else {
            None
        }
    }
}

impl Arrivals for Batch {
    ghost arrivals = { λ events. events };

    fn arrival(&self, place: u64) -> Option<&Sequenced> {
        if place < self.len() {
            Some(self.at(place))
        } else {
            None
        }
    }
}
