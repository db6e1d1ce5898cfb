//! Events by their source and id.

ghost use Rattle.std.specs.Prelude.{◌≡◌, ◌≢◌, ◌+◌, ◌≤◌, [], drop, length, slice_get, take, IfOk, OnErr, Some};
ghost use Rattle.attributes.specs.Event.{EventValue};
ghost use Rattle.inbox.specs.Sets.{set_of};
ghost use Rattle.inbox.specs.Shown.{IsShownOf};
ghost use Rattle.site.specs.Key.{with_key};

use super::Site;
use attributes::Batch;
use std::alloc::AllocError;

impl Site {
    /// Copies of the site's n events from a place of key order on.
    fn copies(&self, place: u64, n: u64) -> Result<Batch, AllocError>
        requires fits { place + n ≤ length (set_of self.now) }
        ensures { IfOk result (λ batch. batch ≡ take n (drop place (set_of self.now))) }
    {
        let mut batch = Batch::empty(self.alloc);
        // The count bounds the sum below.
        let _len = self.len();
        for k in 0..n {
            batch.push(self.at(place + k).copy()?)?;
        }
        Ok(batch)
    }

    /// Copies of a site's events of a source and an id in the order of their texts: none, the one,
    /// or those of a conflict, of which the first is the one that is shown. The time is that of two
    /// searches among all events, and of the copies.
    pub fn get(&self, source: &str, id: &str) -> Result<Batch, AllocError>
        ensures events { IfOk result (λ batch. batch ≡ with_key source.now id.now (set_of self.now)) }
        ensures shown { IfOk result (λ batch. (e : EventValue) → slice_get batch 0 ≡ Some e
            → IsShownOf (set_of self.now) source.now id.now e) }

        // Memory is wanted for events alone.
        ensures err { OnErr result (with_key source.now id.now (set_of self.now) ≢ []) }
    {
        let Some(first) = self.inbox.shown_of(source, id) else {
            return Ok(Batch::empty(self.alloc));
        };
        // What is shown is there.
        let Ok(place) = self.inbox.place_of(first) else {
            return Err(AllocError);
        };
        self.copies(place, self.inbox.key_len(place))
    }
}
