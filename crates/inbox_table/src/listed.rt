//! Events that a table takes without a copy of its own.

ghost use Rattle.std.specs.Prelude.{◌≡◌, ◌<◌, length, slice_get, List, Some};
ghost use Rattle.attributes.specs.Event.{EventValue};

use attributes::{Batch, Sequenced};

/// Events in an order, lent one by one by whoever holds them.
pub trait Listed {
    ghost listed: { Self → List EventValue };

    /// How many events there are to be put into the inbox's table.
    fn count(&self) -> u64
        ensures { result ≡ length (listed self.now) };

    /// The event at a place, from 0, of those to be put into the inbox's table.
    fn lent(&self, i: u64) -> &Sequenced
        requires { i < length (listed self.now) }
        ensures { slice_get (listed self.now) i ≡ Some result.now };
}

impl Listed for Batch {
    ghost listed = { λ batch. batch };

    fn count(&self) -> u64 {
        self.len()
    }

    fn lent(&self, i: u64) -> &Sequenced {
        self.at(i)
    }
}
