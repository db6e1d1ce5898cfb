//! Pages of what a peer lacks, one after another.

ghost use Rattle.std.specs.Prelude.{◌≡◌, ◌≢◌, ◌+◌, ◌≤◌, [], IfOk, IfSome, OnErr, OnOk, length};
ghost use Rattle.coverage.specs.Summary.{version_of};
ghost use Rattle.inbox.specs.Sets.{set_of};
ghost use Rattle.site.specs.Delta.{delta};
ghost use Rattle.site.specs.Page.{max_page, page};
ghost use Rattle.site.specs.Mark.{IsMark};

use super::Site;
use super::lent::Lent;
use attributes::Batch;
use coverage::Summary;
use std::alloc::{AllocError, Global};
use std::collections::BTreeSet;

/// Where the pages of a peer go on: behind so many events that it lacks, which are those up to a
/// place of key order. The own summary tells which they are; where there are places, they stand
/// there.
#[derive(Drop)]
pub struct Mark {
    pub(super) peer: Summary,
    pub(super) own: Summary,
    pub(super) among: Option<BTreeSet<u64>>,
    pub(super) from: u64,
    pub(super) place: u64,
}

/// A mark in a peer's delta, in a box; none where memory is refused.
fn boxed(alloc: Global, mark: Mark) -> Option<Box<Mark>>
    ensures { IfSome result (λ m. m.value ≡ mark) }
{
    Box::new(alloc, mark).ok()
}

impl Site {
    /// A mark for the delta's pages behind the first `from` events that the peer lacks.
    fn marked(&mut self, peer: &Summary, from: u64) -> Result<Mark, AllocError>
        ensures same { self.new ≡ self.old }
        ensures from { IfOk result (λ m. m.from ≡ from) }
        ensures peer { IfOk result (λ m. m.peer ≡ peer.now) }
        ensures mark { IfOk result (λ m. IsMark self.new m.peer m.own m.among m.from m.place) }
    {
        if peer.version() == 2 {
            self.mend()?;
        }
        let own = self.summary_for(peer)?;
        let among = self.places_for(peer, &own);
        let place = self.place_behind(peer, &own, from);
        Ok(Mark {
            peer: peer.copy()?,
            own,
            among,
            from,
            place,
        })
    }

    /// Takes the mark out that a site keeps in a peer's delta, where it stands behind as many
    /// events, and else makes a new one; none where memory is refused. Costs a look at both
    /// summaries where it is kept, else what `delta_page` does before it copies.
    pub fn take_mark(&mut self, peer: &Summary, from: u64) -> Option<Mark>
        ensures same { self.new ≡ self.old }
        ensures from { IfSome result (λ m. m.from ≡ from) }
        ensures peer { IfSome result (λ m. m.peer ≡ peer.now) }
        ensures mark { IfSome result (λ m. IsMark self.new m.peer m.own m.among m.from m.place) }
    {
        if let Some(mark) = self.mark.take() {
            let mark = Box::into_inner(mark);
            if mark.from == from && mark.peer.same(peer) {
                return Some(mark);
            }
        }
        self.marked(peer, from).ok()
    }

    /// Keeps a mark in a delta, for whoever asks the site for the events behind it next; where
    /// memory is refused none is kept.
    pub fn put_mark(&mut self, mark: Mark)
        requires { IsMark self.old mark.peer mark.own mark.among mark.from mark.place }
        ensures { self.new ≡ self.old }
    {
        self.mark = boxed(self.alloc, mark);
    }

    /// The events of a peer's delta behind a mark, `limit` of them at most, where they stand; moves
    /// the mark behind them. Goes over the events from there up to the last one that is answered.
    pub fn lend_delta(&self, mark: &mut Mark, limit: u64) -> Result<Lent<'_>, AllocError>
        requires { IsMark self.now mark.old.peer mark.old.own mark.old.among mark.old.from
            mark.old.place }
        ensures page { IfOk result (λ lent. lent
            ≡ page (delta (set_of self.now) mark.old.peer) mark.old.from limit) }
        ensures from { IfOk result (λ lent. mark.new.from ≡ mark.old.from + length lent) }
        ensures peer { OnOk result (mark.new.peer ≡ mark.old.peer) }
        ensures mark { OnOk result (IsMark self.now mark.new.peer mark.new.own mark.new.among
            mark.new.from mark.new.place) }

        // Memory is wanted for events alone.
        ensures err { OnErr result
            (page (delta (set_of self.now) mark.old.peer) mark.old.from limit ≢ []) }
    {
        // The count bounds the sum below.
        let _len = self.len();
        let part = self.lend_part(&mark.peer, &mark.own, &mark.among, mark.place, limit)?;
        mark.from += part.events.len();
        mark.place = part.next;
        Ok(part.events)
    }

    /// `delta_page`, which goes on where the last page of the same peer ended, if this one is asked
    /// for next and nothing came since: it then goes over the events from there up to the last one
    /// that is answered alone. Keeps the digests that it makes, and copies of both summaries until
    /// an event comes or another page is asked for.
    pub fn next_delta_page(
        &mut self,
        peer: &Summary,
        from: u64,
        limit: u64,
    ) -> Result<Batch, AllocError>
        requires low { 1 ≤ limit }
        requires high { limit ≤ max_page }
        ensures same { self.new ≡ self.old }
        ensures page { IfOk result (λ batch. batch
            ≡ page (delta (set_of self.old) peer.now) from limit) }

        // A site without events wants no memory.
        ensures err { OnErr result (set_of self.old ≢ []) }

        // For a peer of version 1 memory is wanted for events alone.
        ensures err_of_numbers { OnErr result (version_of peer.now ≡ 1
            → page (delta (set_of self.old) peer.now) from limit ≢ []) }
    {
        let Some(mut mark) = self.take_mark(peer, from) else {
            return self.delta_page(peer, from, limit);
        };
        let events = self.lend_delta(&mut mark, limit)?.copied(self.alloc)?;
        self.put_mark(mark);
        Ok(events)
    }
}
