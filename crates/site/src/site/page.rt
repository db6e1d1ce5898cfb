//! Pages of the events.

ghost use Rattle.std.specs.Prelude.{◌≡◌, ◌≢◌, ◌≤◌, [], IfOk, OnErr};
ghost use Rattle.inbox.specs.Sets.{set_of};
ghost use Rattle.site.specs.Page.{max_page, page};

use super::Site;
use attributes::Batch;
use paging::MAX_PAGE;
use std::alloc::AllocError;

impl Site {
    /// A page of a site: the events at the places from `from` on in key order, `limit` of them at
    /// most: 1 to 100. Events are never removed, so whoever goes on from the place that was reached
    /// skips none that was there before. Time and memory in proportion to the answer.
    pub fn page(&self, from: u64, limit: u64) -> Result<Batch, AllocError>
        requires low { 1 ≤ limit }
        requires high { limit ≤ max_page }
        ensures page { IfOk result (λ batch. batch ≡ page (set_of self.now) from limit) }

        // Memory is wanted for events alone.
        ensures err { OnErr result (page (set_of self.now) from limit ≢ []) }
        ensures limit { MAX_PAGE ≡ max_page }
    {
        let mut batch = Batch::empty(self.alloc);
        let count = limit.min(self.len().saturating_sub(from));
        for k in 0..count {
            batch.push(self.at(from + k).copy()?)?;
        }
        Ok(batch)
    }

    /// The events that came to the site after the first n, in the order in which they came, `limit`
    /// of them at most: 1 to 100. Time and memory in proportion to what is answered.
    pub fn arrivals_after(&self, n: u64, limit: u64) -> Result<Batch, AllocError>
        requires low { 1 ≤ limit }
        requires high { limit ≤ max_page }
        ensures page { IfOk result (λ batch. batch ≡ page self.now n limit) }

        // Memory is wanted for events alone.
        ensures err { OnErr result (page self.now n limit ≢ []) }
    {
        let mut batch = Batch::empty(self.alloc);
        let count = limit.min(self.arrived().saturating_sub(n));
        for k in 0..count {
            batch.push(self.arrived_at(n + k).copy()?)?;
        }
        Ok(batch)
    }
}
