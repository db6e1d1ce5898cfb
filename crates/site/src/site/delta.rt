//! What a peer lacks.

ghost use Rattle.std.specs.Prelude.{◌≡◌, ◌≢◌, ◌≤◌, [], drop, length, take, IfOk, OnErr};
ghost use Rattle.inbox.specs.Sets.{set_of};
ghost use Rattle.coverage.specs.Summary.{version_of};
ghost use Rattle.site.specs.Delta.{IsDeltaPart, IsPartOf, LacksSomeFrom, Tells, delta, is_wanting, lacking_of};
ghost use Rattle.site.specs.Page.{max_page, page};

use super::Site;
use super::lent::Lent;
use attributes::{Batch, Sequenced};
use coverage::Summary;
use coverage::laws::summaries_stand_for_sets;
use std::alloc::{AllocError, Global};

/// Events that a peer lacks, and the place of key order to go on from.
#[derive(Drop)]
pub struct DeltaPart {
    pub events: Batch,
    pub next: u64,
}

/// Events that a peer lacks, which the site lends, and the place of key order to go on from.
#[derive(Drop)]
pub(super) struct LentPart<'s> {
    pub(super) events: Lent<'s>,
    pub(super) next: u64,
}

impl LentPart<'_> {
    /// A delta's part with copies of the events that the site lends.
    pub(super) fn copied(&self, alloc: Global) -> Result<DeltaPart, AllocError>
        ensures events { IfOk result (λ part. part.events ≡ self.now.events) }
        ensures next { IfOk result (λ part. part.next ≡ self.now.next) }
        ensures err { OnErr result (self.now.events ≢ []) }
    {
        Ok(DeltaPart {
            events: self.events.copied(alloc)?,
            next: self.next,
        })
    }
}

/// Whether a peer's summary wants an event of which the site's own summary tells.
pub(super) fn is_wanting(peer: &Summary, own: &Summary, event: &Sequenced) -> bool
    ensures { result ≡ is_wanting peer.now own.now event.now }
{
    peer.wants(own, event.event().source(), event.number())
}

impl Site {
    /// The summary that tells `delta_from` what a peer lacks: the site's own one of version 2, but
    /// for a peer of version 1 the empty one, which takes no memory, since numbers alone tell then.
    /// Costs what `summary` does, and keeps nothing.
    pub fn summary_for(&self, peer: &Summary) -> Result<Summary, AllocError>
        ensures tells { IfOk result (Tells (set_of self.now) peer.now) }
        ensures err { OnErr result (version_of peer.now ≡ 2) }

        // A site without events wants no memory.
        ensures err_of_events { OnErr result (set_of self.now ≢ []) }
    {
        // A law that the clause rests on; the call does nothing.
        summaries_stand_for_sets();
        if peer.version() == 1 {
            return Ok(Summary::empty(self.alloc));
        }
        self.digested()
    }

    /// The place in key order behind which the site's events that the peer lacks are all but the
    /// first `from`.
    pub(super) fn place_behind(&self, peer: &Summary, own: &Summary, from: u64) -> u64
        requires tells { Tells (set_of self.now) peer.now own.now }
        ensures within { result ≤ length (set_of self.now) }
        ensures rest { lacking_of (set_of self.now) peer.now (drop result (set_of self.now))
            ≡ drop from (delta (set_of self.now) peer.now) }
    {
        if from == 0 {
            return 0;
        }
        let mut left = from;
        let len = self.len();
        for i in 0..len {
            if is_wanting(peer, own, self.at(i)) {
                if left == 0 {
                    return i;
                }
                left -= 1;
            }
        }
        len
    }

    /// Of the events from a place of key order on, those that the peer lacks, `limit` of them at
    /// most, lent, and the place to go on from. Costs a look-up in both summaries for each event
    /// that is passed.
    pub(super) fn lend_from(
        &self,
        peer: &Summary,
        own: &Summary,
        place: u64,
        limit: u64,
    ) -> Result<LentPart<'_>, AllocError>
        requires place { place ≤ length (set_of self.now) }
        requires tells { Tells (set_of self.now) peer.now own.now }
        ensures part { IfOk result
            (λ p. IsPartOf (set_of self.now) peer.now place limit p.events p.next) }

        // Memory is wanted for events alone.
        ensures err { OnErr result (LacksSomeFrom (set_of self.now) peer.now place limit) }
    {
        let mut events = Lent::empty(self.alloc);
        let len = self.len();
        for i in place..len {
            if events.len() == limit {
                return Ok(LentPart { events, next: i });
            }
            let event = self.at(i);
            if is_wanting(peer, own, event) {
                events.push(event)?;
            }
        }
        Ok(LentPart { events, next: len })
    }

    /// Of the events from a place of key order on, those that the peer lacks, `limit` of them at
    /// most, and the place to go on from. Whoever goes on from there until no event comes has the
    /// whole rest of the delta, and goes over each event once. The own summary is the one of
    /// `summary_for`, or that of `summary`. Costs a look-up in both summaries for each event that
    /// is passed, and a copy of each that is answered.
    pub fn delta_from(
        &self,
        peer: &Summary,
        own: &Summary,
        place: u64,
        limit: u64,
    ) -> Result<DeltaPart, AllocError>
        requires place { place ≤ length (set_of self.now) }
        requires tells { Tells (set_of self.now) peer.now own.now }
        ensures part { IfOk result (IsDeltaPart (set_of self.now) peer.now place limit) }

        // Memory is wanted for events alone.
        ensures err { OnErr result (LacksSomeFrom (set_of self.now) peer.now place limit) }
    {
        let part = self.lend_from(peer, own, place, limit)?;
        part.copied(self.alloc)
    }

    /// The events that the peer lacks, in key order: those whose number its summary doesn't hold
    /// for their source, and from a summary of version 2 also all events of each block of which it
    /// has another digest than this site, or none. Goes over all events, with a look-up in the
    /// summary for each; what is not lacking is not copied. For a peer of version 2 it makes the
    /// own summary first.
    pub fn delta(&self, peer: &Summary) -> Result<Batch, AllocError>
        ensures delta { IfOk result (λ batch. batch ≡ delta (set_of self.now) peer.now) }

        // A site without events wants no memory.
        ensures err { OnErr result (set_of self.now ≢ []) }

        // For a peer of version 1 memory is wanted for events alone.
        ensures err_of_numbers { OnErr result
            (version_of peer.now ≡ 1 → delta (set_of self.now) peer.now ≢ []) }
    {
        let len = self.len();
        if len == 0 {
            return Ok(Batch::empty(self.alloc));
        }
        let own = self.summary_for(peer)?;
        Ok(self.delta_from(peer, &own, 0, len)?.events)
    }

    /// The events at the places from `from` on of the peer's `delta`, `limit` of them at most: 1 to
    /// 100. Goes over the events up to the last one that is answered, with a look-up in the summary
    /// for each; nothing else is copied. For a peer of version 2 it makes the own summary first.
    pub fn delta_page(&self, peer: &Summary, from: u64, limit: u64) -> Result<Batch, AllocError>
        requires low { 1 ≤ limit }
        requires high { limit ≤ max_page }
        ensures page { IfOk result (λ batch. batch
            ≡ page (delta (set_of self.now) peer.now) from limit) }

        // A site without events wants no memory.
        ensures err { OnErr result (set_of self.now ≢ []) }

        // For a peer of version 1 memory is wanted for events alone.
        ensures err_of_numbers { OnErr result (version_of peer.now ≡ 1
            → page (delta (set_of self.now) peer.now) from limit ≢ []) }
    {
        if self.len() == 0 {
            return Ok(Batch::empty(self.alloc));
        }
        let own = self.summary_for(peer)?;
        let place = self.place_behind(peer, &own, from);
        Ok(self.delta_from(peer, &own, place, limit)?.events)
    }
}
