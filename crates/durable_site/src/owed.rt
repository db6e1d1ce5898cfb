//! What a table has, and a site hasn't counted yet.
ghost use Rattle.std.specs.Prelude.{◌≡◌, ◌≢◌, ◌↔◌, [], IsTrue, OnErr, OnOk};
ghost use Rattle.inbox.specs.KeyOrder.{key_cmp};
ghost use Rattle.inbox.specs.Ordered.{append_new};
ghost use Rattle.inbox_table.specs.Calls.{joined};

use attributes::{Batch, List};
use site::Site;
use std::alloc::{AllocError, Global};
use std::collections::VecDeque;
use std::marker::Model;

/// Events that are kept and not yet counted, in the order in which they came: those of a batch, and
/// behind them those of the others that came in the same transaction. Contracts see the events.
#[derive(Drop)]
pub struct Owed {
    front: Batch,
    behind: VecDeque<Batch>,
}

impl Model for Owed {
    ghost use Rattle.std.specs.Prelude.{◌++◌, List};
    ghost use Rattle.std.specs.Coded.{coded_list};
    ghost use Rattle.attributes.specs.EventCode.{event_code};
    ghost use Rattle.attributes.specs.Event.{EventValue};
    ghost use Rattle.inbox_table.specs.Calls.{joined};

    ghost Value = { List EventValue };

    ghost coded = { coded_list event_code };

    ghost view = { λ o. o.front ++ joined o.behind.items };
}

/// Counts a batch's events into the site. An error where memory runs out; it has the rest then.
fn count(site: &mut Site, batch: &mut Batch) -> Result<(), AllocError>
    ensures all { append_new key_cmp site.new batch.new ≡ append_new key_cmp site.old batch.old }
    ensures done { OnOk result (batch.new ≡ []) }
    ensures short { OnErr result (batch.new ≢ []) }
{
    match site.take_batch(batch) {
        Ok(_) => Ok(()),
        Err(_) => Err(AllocError),
    }
}

impl Owed {
    /// The events of a batch, as owed to the site. It takes no memory.
    pub(crate) fn of(alloc: Global, batch: Batch) -> Owed
        ensures { result ≡ batch }
    {
        Owed {
            front: batch,
            behind: VecDeque::new(alloc),
        }
    }

    /// The events of the batches owed to the site, one behind the other. It takes no memory.
    pub(crate) fn of_each(alloc: Global, lists: List<Batch>) -> Owed
        ensures { result ≡ joined lists }
    {
        Owed {
            front: Batch::empty(alloc),
            behind: VecDeque::from(lists.into_vec()),
        }
    }

    /// Whether nothing is owed to the site. The time grows with the batches.
    pub fn is_empty(&self) -> bool
        ensures { IsTrue result ↔ (self.now ≡ []) }
    {
        for i in 0..self.behind.len() {
            if !self.behind[i].is_empty() {
                return false;
            }
        }
        self.front.is_empty()
    }

    /// Counts what is owed into the site. An error where memory runs out; the rest is owed still.
    pub(crate) fn count_to(&mut self, site: &mut Site) -> Result<(), AllocError>
        ensures all { append_new key_cmp site.new self.new ≡ append_new key_cmp site.old self.old }
        ensures done { OnOk result (self.new ≡ []) }
        ensures short { OnErr result (self.new ≢ []) }
    {
        for i in 0..self.behind.len() {
            count(site, &mut self.front)?;
            match self.behind.pop_front() {
                Some(next) => self.front = next,
                None => {}
            }
        }
        count(site, &mut self.front)
    }
}
