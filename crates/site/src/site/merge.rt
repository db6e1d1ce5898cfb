//! Events taken of which another keeps its own.

ghost use Rattle.std.specs.Prelude.{◌≡◌, ◌≢◌, ◌<◌, [], ◌∷◌, false, length, IfErr, IfOk, OnErr, OnOk};
ghost use Rattle.inbox.specs.KeyOrder.{key_cmp};
ghost use Rattle.inbox.specs.Ordered.{append_new, has};
ghost use Rattle.inbox.specs.Sets.{set_of, union};
ghost use Rattle.site.specs.Arrival.{Brings, LacksArrivalAt};

use super::Site;
use super::take::grow;
use attributes::{Batch, Sequenced};
use inbox::laws::sets_are_members;
use inbox::{Counts, Short};
use std::alloc::AllocError;

impl Site {
    /// The site takes a copy of an event, unless it is there.
    fn take_copy(&mut self, event: &Sequenced) -> Result<(), AllocError>
        ensures arrivals { OnOk result (self.new ≡ append_new key_cmp self.old (event.now ∷ [])) }
        ensures set { OnOk result (set_of self.new ≡ union (set_of self.old) (event.now ∷ [])) }
        ensures same { OnErr result (self.new ≡ self.old) }
        ensures err_of_new { OnErr result (has key_cmp self.old event.now ≡ false) }
    {
        let Err(gap) = self.inbox.place_of(event) else {
            sets_are_members();
            return Ok(());
        };
        let copy = event.copy()?;
        grow(
            &mut self.inbox,
            &mut self.summary,
            &mut self.blocks,
            &mut self.views,
            event,
            gap,
        )?;
        self.mark = None;
        let _taken = self.inbox.put(copy);
        Ok(())
    }

    /// The site takes copies of the events of a batch, which stays as it is, from its front on.
    /// Those that are there are not copied, and need no memory. After want of memory those before
    /// it stay. The time is that of `take_batch`, and one search more for each new event.
    pub fn take_copies(&mut self, batch: &Batch) -> Result<Counts, Short>
        ensures brings { Brings self.old self.new batch.now result }
        ensures short_taken { IfErr result (λ s. s.taken < length batch.now) }

        // Memory was wanted for a new event.
        ensures short_of_new { IfErr result (λ s. LacksArrivalAt self.new batch.now s.taken) }
    {
        let before = self.arrived();
        let len = batch.len();
        for i in 0..len {
            let Ok(_) = self.take_copy(batch.at(i)) else {
                let fresh = self.arrived() - before;
                return Err(Short { taken: i, fresh });
            };
        }
        let fresh = self.arrived() - before;
        Ok(Counts {
            fresh,
            repeated: len - fresh,
        })
    }

    /// Takes copies of the other site's events, in key order. Those that are there are not copied,
    /// and need no memory. After want of memory those before it stay. The time is that of
    /// `take_batch`, and one search more for each new event.
    pub fn merge(&mut self, other: &Site) -> Result<Counts, Short>
        ensures brings { Brings self.old self.new (set_of other.now) result }
        ensures short_taken { IfErr result (λ s. s.taken < length (set_of other.now)) }

        // Memory was wanted for a new event.
        ensures short_of_new { IfErr result (λ s. LacksArrivalAt self.new (set_of other.now) s.taken) }
    {
        let before = self.arrived();
        for i in 0..other.len() {
            let Ok(_) = self.take_copy(other.at(i)) else {
                let fresh = self.arrived() - before;
                return Err(Short { taken: i, fresh });
            };
        }
        let fresh = self.arrived() - before;
        Ok(Counts {
            fresh,
            repeated: other.len() - fresh,
        })
    }

    /// A site with the same events, which came in the same order. It keeps no views. Time and memory
    /// in proportion to the events.
    pub fn copy(&self) -> Result<Site, AllocError>
        ensures copy { IfOk result (λ copy. copy ≡ self.now) }

        // A site without events wants no memory.
        ensures err { OnErr result (self.now ≢ []) }
    {
        let mut copy = Site::empty(self.alloc);
        for i in 0..self.arrived() {
            copy.take_copy(self.arrived_at(i))?;
        }
        Ok(copy)
    }
}
