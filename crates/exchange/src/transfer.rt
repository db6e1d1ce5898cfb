//! Events that go from one site to another.

ghost use Rattle.std.specs.Prelude.{◌≡◌, ◌≢◌, ◌+◌, ◌<◌, ◌≤◌, [], drop, length, take, IfErr, IfOk, IfSome, OnErr};
ghost use Rattle.inbox.specs.KeyOrder.{key_cmp};
ghost use Rattle.inbox.specs.Ordered.{append_new};
ghost use Rattle.inbox.specs.Sets.{set_of, union};
ghost use Rattle.site.specs.Arrival.{Brings, LacksArrivalAt};
ghost use Rattle.site.specs.Delta.{AreAll, Tells, delta, lacking_of};
ghost use Rattle.exchange.specs.Lacking.{lacking};
ghost use Rattle.exchange.specs.Schedule.{IsCutShort};
ghost use Rattle.exchange.specs.steps.Moved.{MovesOn};

use coverage::Summary;
use coverage::laws::summaries_stand_for_sets;
use inbox::{Counts, Short};
use site::{MAX_PAGE, Site};
use std::collections::BTreeSet;

/// How many events went, and the place of key order to go on from.
#[derive(Clone, Copy)]
struct Moved {
    count: u64,
    next: u64,
}

/// Gossip moves the next events that the peer lacks from a place of key order on, as many as go at
/// a time. After want of memory the answer is how many of them were taken.
fn move_part(
    from: &Site,
    to: &mut Site,
    peer: &Summary,
    own: &Summary,
    among: &Option<BTreeSet<u64>>,
    place: u64,
) -> Result<Moved, u64>
    requires place { place ≤ length (set_of from.now) }
    requires tells { Tells (set_of from.now) peer.now own.now }
    requires all { IfSome among.now (AreAll (set_of from.now) peer.now) }
    ensures { MovesOn (set_of from.now) peer.now place
        (lacking_of (set_of from.now) peer.now (drop place (set_of from.now)))
        to.old to.new result }
{
    let Ok(mut part) = from.delta_part(peer, own, among, place, MAX_PAGE) else {
        return Err(0);
    };
    let count = part.events.len();
    match to.take_batch(&mut part.events) {
        Ok(_) => Ok(Moved {
            count,
            next: part.next,
        }),
        Err(short) => Err(short.taken),
    }
}

/// Gossip one way: moves all events of the first site that the peer lacks.
fn move_all(
    from: &Site,
    to: &mut Site,
    peer: &Summary,
    own: &Summary,
    among: &Option<BTreeSet<u64>>,
) -> Result<Counts, Short>
    requires tells { Tells (set_of from.now) peer.now own.now }
    requires all { IfSome among.now (AreAll (set_of from.now) peer.now) }
    ensures brings { Brings to.old to.new (delta (set_of from.now) peer.now) result }
    ensures short_taken { IfErr result (λ s. s.taken
        < length (delta (set_of from.now) peer.now)) }
{
    // The count of the first site's events bounds the sums below.
    let len = from.len();
    let before = to.arrived();
    let mut place = 0;
    let mut taken = 0;
    while place < len {
        match move_part(from, to, peer, own, among, place) {
            Ok(moved) => {
                taken += moved.count;
                place = if moved.count == 0 { len } else { moved.next };
            }
            Err(part) => {
                let fresh = to.arrived() - before;
                let taken = taken + part;
                return Err(Short { taken, fresh });
            }
        }
    }
    let fresh = to.arrived() - before;
    let repeated = taken - fresh;
    Ok(Counts { fresh, repeated })
}

/// Brings the second site what it lacks of the first, in key order: the events whose number it
/// hasn't for their source, and all events of each block of which the digests differ, also those
/// that it has. The summaries of both are taken once; then at most 100 events go at a time. After
/// want of memory those that went before stay, and the refusal says how many: none where memory was
/// wanted for a summary, and else fewer than all. Costs the summaries, a comparison of their
/// blocks, a look-up in both for each event of the first that stands in a block in which they
/// differ, and for those that go a copy and a take.
pub fn gossip(from: &Site, to: &mut Site) -> Result<Counts, Short>
    ensures brings { Brings to.old to.new (lacking (set_of from.now) (set_of to.old)) result }
    ensures short_taken { IfErr result (λ s.
        IsCutShort s.taken (lacking (set_of from.now) (set_of to.old))) }

    // A site without events has nothing to bring, and no memory is wanted.
    ensures short_of_events { OnErr result (set_of from.now ≢ []) }
{
    if from.len() == 0 {
        return Ok(Counts {
            fresh: 0,
            repeated: 0,
        });
    }
    let Ok(peer) = to.summary() else {
        return Err(Short { taken: 0, fresh: 0 });
    };
    let Ok(own) = from.summary_for(&peer) else {
        return Err(Short { taken: 0, fresh: 0 });
    };
    // A law that the clauses rest on; the call does nothing.
    summaries_stand_for_sets();
    let among = from.places_for(&peer, &own);
    move_all(from, to, &peer, &own, &among)
}

/// A scrub: brings the second site all events of the first, in key order; those that are there are
/// not copied, and need no memory. After want of memory those that went before stay, and the
/// refusal says how many. Costs what `Site::merge` does.
pub fn scrub(from: &Site, to: &mut Site) -> Result<Counts, Short>
    ensures brings { Brings to.old to.new (set_of from.now) result }
    ensures short_taken { IfErr result (λ s. s.taken < length (set_of from.now)) }

    // Memory was wanted for a new event.
    ensures short_of_new { IfErr result (λ s. LacksArrivalAt to.new (set_of from.now) s.taken) }
{
    to.merge(from)
}
