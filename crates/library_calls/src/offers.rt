//! Bodies of several callers that come in one transaction.

ghost use Rattle.std.specs.Prelude.{◌≡◌, ◌++◌, [], ◌∷◌, IfOk};
ghost use Rattle.library_calls.specs.Offers.{AnswerAt, IsOfferedBehind, ReadsBody, no_offers};

use crate::calls::{DONE, Reply, batch_of};
use attributes::{Batch, List};
use event_files::ReportFault;
use std::alloc::{AllocError, Global};

/// What a body came to when it was offered.
#[derive(Clone, Copy)]
pub struct Head {
    /// 0 where it spells events with numbers, else why it is refused.
    pub(crate) status: u32,
    /// How many events it has.
    pub(crate) count: u64,
}

/// A body that was offered.
#[derive(Drop)]
pub(crate) struct Body {
    pub(crate) head: Head,
    pub(crate) batch: Batch,
}

/// Bodies that were offered, in their order, and what became of them. The batch of one that is
/// refused has no events.
#[derive(Drop)]
pub struct Offers {
    pub(crate) heads: List<Head>,
    pub(crate) batches: List<Batch>,
    /// Once they were kept: how many events of each were not there by then.
    pub(crate) each: List<u64>,
    /// What keeping them came to.
    pub(crate) status: u32,
}

/// No body has this place.
const NO_BODY: u32 = 9;

/// What a body offered to libjumbetai's site comes to, and its events.
pub(crate) fn body_of(alloc: Global, bytes: &[u8]) -> Result<Body, AllocError>
    ensures { IfOk result (λ body. ReadsBody bytes.now body.head body.batch) }
{
    match batch_of(alloc, bytes) {
        Ok(batch) => {
            let head = Head {
                status: DONE,
                count: batch.len(),
            };
            Ok(Body { head, batch })
        }
        Err(refused) => {
            if refused.fault == ReportFault::OutOfMemory {
                return Err(AllocError);
            }
            let head = Head {
                status: refused.fault.number() as u32,
                count: 0,
            };
            let batch = Batch::empty(alloc);
            Ok(Body { head, batch })
        }
    }
}

impl Offers {
    /// No body offered to libjumbetai's site. It takes no memory.
    pub(crate) fn none(alloc: Global) -> Offers
        ensures { result ≡ no_offers }
    {
        Offers {
            heads: List::empty(alloc),
            batches: List::empty(alloc),
            each: List::empty(alloc),
            status: DONE,
        }
    }

    /// Lets all bodies that were offered to libjumbetai's site go.
    pub(crate) fn let_go(&mut self, alloc: Global)
        ensures { self.new ≡ no_offers }
    {
        *self = Offers::none(alloc);
    }

    /// Bodies offered to libjumbetai's site, and one behind them. At want of memory all are let go.
    pub(crate) fn with(mut self, body: Body) -> Result<Offers, AllocError>
        ensures { IfOk result (λ o. IsOfferedBehind body.head body.batch self o) }
    {
        let Body { head, batch } = body;
        self.heads.push(head)?;
        self.batches.push(batch)?;
        Ok(self)
    }

    /// Tells libjumbetai's caller what became of the offered body at a place.
    pub(crate) fn answer(&self, place: u64, reply: &mut Reply)
        ensures { AnswerAt self.now place reply.new }
    {
        reply.status = NO_BODY;
        reply.fresh = 0;
        reply.repeated = 0;
        if place >= self.heads.len() {
            return;
        }
        let head = self.heads.at(place);
        reply.status = if head.status == DONE {
            self.status
        } else {
            head.status
        };
        if place < self.each.len() {
            let fresh = *self.each.at(place);
            reply.fresh = fresh;
            reply.repeated = head.count.saturating_sub(fresh);
        }
    }
}
