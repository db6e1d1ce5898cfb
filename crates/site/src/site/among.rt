//! Where events may stand that a peer lacks: in the blocks in which it differs.

ghost use Rattle.std.specs.Prelude.{◌≡◌, ◌≢◌, ◌+◌, ◌++◌, ◌<◌, ◌≤◌, ℕ, List, [], IsTrue, IfOk, IfSome, MatchOption, OnErr, OnOk, drop, false, length, take};
ghost use Rattle.std.specs.BTreeSet.{contains};
ghost use Rattle.std.specs.Ordering.{nat_cmp};
ghost use Rattle.inbox.specs.Sets.{set_of};
ghost use Rattle.block_digests.specs.Kept.{places_of};
ghost use Rattle.site.specs.Delta.{AreAll, IsDeltaPart, IsPartOf, LacksSomeFrom, Tells, lacking_of};
ghost use Rattle.site.specs.steps.Among.{AllIn, HasEach, HasPlace, IsNextFrom, NoPlaceFrom, WantsNone};

use super::Site;
use super::delta::{DeltaPart, LentPart, is_wanting};
use super::lent::Lent;
use coverage::Summary;
use inbox::Inbox;
use inbox::laws::sets_are_members;
use std::alloc::{AllocError, Global};
use std::collections::BTreeSet;

/// Of how many events one may be among those that are looked at by their blocks: where there are
/// more, going over all in key order is quicker.
const FEW: u64 = 16;

/// Adds the place in key order of the site's event that came at a place, for a delta.
fn add_place(inbox: &Inbox, place: u64, found: &mut BTreeSet<u64>) -> Result<(), AllocError>
    ensures kept { OnOk result (AllIn found.old found.new) }
    ensures added { OnOk result (HasPlace inbox.now.arrivals found.new place) }
{
    // A set has each event at one place.
    sets_are_members();
    if place >= inbox.arrived() {
        return Ok(());
    }
    // What came is in the set.
    let Ok(at) = inbox.place_of(inbox.arrived_at(place)) else {
        return Err(AllocError);
    };
    found.insert(at)?;
    Ok(())
}

/// Adds the places in key order of the site's events that came at places, for a delta.
fn add_places(inbox: &Inbox, places: &[u64], found: &mut BTreeSet<u64>) -> Result<(), AllocError>
    ensures kept { OnOk result (AllIn found.old found.new) }
    ensures added { OnOk result (HasEach inbox.now.arrivals found.new places.now) }
{
    for place in places {
        add_place(inbox, *place, found)?;
    }
    Ok(())
}

/// The first of the places that a delta looks at from a place on.
fn next_from(places: &BTreeSet<u64>, place: u64) -> Option<u64>
    ensures { MatchOption result (NoPlaceFrom places.now place) (IsNextFrom places.now place) }
{
    places.range(place..).next().copied()
}

/// The first of a delta's places from a place on, and the length where there is none before it.
fn next_before(places: &BTreeSet<u64>, place: u64, len: u64) -> u64
    requires { place ≤ len }
    ensures later { place ≤ result }
    ensures within { result ≤ len }
    ensures none { (q : ℕ) → place ≤ q → q < result → contains nat_cmp places.now q ≡ false }
{
    match next_from(places, place) {
        Some(next) => next.min(len),
        None => len,
    }
}

impl Site {
    /// Whether the peer of a delta needs none of the site's events at the places of a block. The
    /// answer may be false where it doesn't.
    fn wants_none(&self, peer: &Summary, own: &Summary, places: &[u64]) -> bool
        ensures { (source : List ℕ) (k : ℕ) → places.now ≡ places_of self.now source k
            → IsTrue result → WantsNone self.now peer.now own.now source k }
    {
        let Some(first) = places.first() else {
            return true;
        };
        if *first >= self.arrived() {
            return false;
        }
        let event = self.arrived_at(*first);
        peer.wants_none_beside(own, &self.summary, event.event().source(), event.number())
    }

    /// Whether more of a site's events than so many stand in blocks where the peer differs. It
    /// spares time: no answer rests on it. Costs a few look-ups in the summaries for each block.
    fn differs_in_many(&self, peer: &Summary, own: &Summary, most: u64) -> bool {
        let mut count: u64 = 0;
        for i in 0..self.blocks.len() {
            let places = self.blocks.places(i);
            if !self.wants_none(peer, own, places) {
                count = count.saturating_add(places.len() as u64);
            }
            if count > most {
                return true;
            }
        }
        false
    }

    /// Places of key order, outside of which nothing stands that the peer lacks: those of the
    /// events in the blocks in which it differs. None where they are more than one in sixteen of
    /// all events, or where memory is refused. The own summary is the one of `summary_for`, or that
    /// of `summary`. Costs a few look-ups in the summaries for each block, and a search for each
    /// event of those that differ.
    pub fn places_for(&self, peer: &Summary, own: &Summary) -> Option<BTreeSet<u64>>
        requires { Tells (set_of self.now) peer.now own.now }
        ensures { IfSome result (AreAll (set_of self.now) peer.now) }
    {
        // What the set has and what came are the same events.
        sets_are_members();
        if self.differs_in_many(peer, own, self.arrived() / FEW) {
            return None;
        }
        let mut found = BTreeSet::new(self.alloc);
        for i in 0..self.blocks.len() {
            let places = self.blocks.places(i);
            if self.wants_none(peer, own, places) {
                continue;
            }
            let Ok(()) = add_places(&self.inbox, places, &mut found) else {
                return None;
            };
        }
        Some(found)
    }

    /// Lends to a delta the site's event at a place of key order, if the peer wants it.
    fn push_wanted<'s>(
        &'s self,
        peer: &Summary,
        own: &Summary,
        at: u64,
        events: &mut Lent<'s>,
    ) -> Result<(), AllocError>
        requires at { at < length (set_of self.now) }
        requires tells { Tells (set_of self.now) peer.now own.now }
        ensures ok { OnOk result (events.new
            ++ lacking_of (set_of self.now) peer.now (drop (at + 1) (set_of self.now))
            ≡ events.old ++ lacking_of (set_of self.now) peer.now (drop at (set_of self.now))) }
        ensures one { OnOk result (length events.new ≤ length events.old + 1) }
        ensures err { OnErr result
            (lacking_of (set_of self.now) peer.now (drop at (set_of self.now)) ≢ []) }
    {
        let event = self.at(at);
        if is_wanting(peer, own, event) {
            events.push(event)?;
        }
        Ok(())
    }

    /// `lend_from`, which looks at the site's events at places of key order alone.
    fn lend_among(
        &self,
        peer: &Summary,
        own: &Summary,
        among: &BTreeSet<u64>,
        place: u64,
        limit: u64,
    ) -> Result<LentPart<'_>, AllocError>
        requires place { place ≤ length (set_of self.now) }
        requires tells { Tells (set_of self.now) peer.now own.now }
        requires all { AreAll (set_of self.now) peer.now among.now }
        ensures part { IfOk result
            (λ p. IsPartOf (set_of self.now) peer.now place limit p.events p.next) }

        // Memory is wanted for events alone.
        ensures err { OnErr result (LacksSomeFrom (set_of self.now) peer.now place limit) }
    {
        let mut events = Lent::empty(self.alloc);
        let len = self.len();
        let mut at = place;
        while at < len && events.len() < limit {
            at = next_before(among, at, len);
            if at < len {
                self.push_wanted(peer, own, at, &mut events)?;
                at += 1;
            }
        }
        Ok(LentPart { events, next: at })
    }

    /// `lend_from`, which where there are places looks at the events there alone: those of
    /// `places_for`, or others outside of which nothing stands that the peer lacks. Costs a look-up
    /// in both summaries for each place that is passed, or for each event where there are none.
    pub(super) fn lend_part(
        &self,
        peer: &Summary,
        own: &Summary,
        among: &Option<BTreeSet<u64>>,
        place: u64,
        limit: u64,
    ) -> Result<LentPart<'_>, AllocError>
        requires place { place ≤ length (set_of self.now) }
        requires tells { Tells (set_of self.now) peer.now own.now }
        requires all { IfSome among.now (AreAll (set_of self.now) peer.now) }
        ensures part { IfOk result
            (λ p. IsPartOf (set_of self.now) peer.now place limit p.events p.next) }

        // Memory is wanted for events alone.
        ensures err { OnErr result (LacksSomeFrom (set_of self.now) peer.now place limit) }
    {
        match among {
            Some(among) => self.lend_among(peer, own, among, place, limit),
            None => self.lend_from(peer, own, place, limit),
        }
    }

    /// `delta_from`, which where there are places looks at the events there alone: those of
    /// `places_for`, or others outside of which nothing stands that the peer lacks. Costs a look-up
    /// in both summaries for each place that is passed, or for each event where there are none, and
    /// a copy of each event that is answered.
    pub fn delta_part(
        &self,
        peer: &Summary,
        own: &Summary,
        among: &Option<BTreeSet<u64>>,
        place: u64,
        limit: u64,
    ) -> Result<DeltaPart, AllocError>
        requires place { place ≤ length (set_of self.now) }
        requires tells { Tells (set_of self.now) peer.now own.now }
        requires all { IfSome among.now (AreAll (set_of self.now) peer.now) }
        ensures part { IfOk result (IsDeltaPart (set_of self.now) peer.now place limit) }

        // Memory is wanted for events alone.
        ensures err { OnErr result (LacksSomeFrom (set_of self.now) peer.now place limit) }
    {
        let part = self.lend_part(peer, own, among, place, limit)?;
        part.copied(self.alloc)
    }
}
