//! Blocks of events that come one after another, with digests that are kept.

ghost use Rattle.std.specs.Prelude.{◌≡◌, ◌≢◌, ◌++◌, ◌∷◌, ◌-◌, ◌+◌, ◌<◌, ◌&&◌, ◌==◌, ℕ, List, [], length, map, take, IfOk, OnOk, OnErr, Some, None, true, false, bytes_eq, slice_get, vec_len, if◌then◌else◌};
ghost use Rattle.std.specs.List.{AllByRecursion};
ghost use Rattle.std.specs.List.Sorted.{IsStrictlySortedBy};
ghost use Rattle.std.specs.Map.{keys_of};
ghost use Rattle.std.specs.String.{string_cmp};
ghost use Rattle.std.specs.BTreeMap.{get};
ghost use Rattle.std.specs.Ordering.{nat_cmp};
ghost use Rattle.attributes.specs.Event.{EventValue};
ghost use Rattle.attributes.specs.Fault.{IsEvent};
ghost use Rattle.inbox.specs.KeyOrder.{key_cmp};
ghost use Rattle.inbox.specs.Ordered.{append_new, has};
ghost use Rattle.inbox.specs.Sets.{AreEvents};
ghost use Rattle.sha2.specs.Sha256.{sha256};
ghost use Rattle.block_digests.specs.Block.{line_cmp, lines};
ghost use Rattle.block_digests.specs.Kept.{KeepsDigests, AreDigestsOf, AreOfSource, HasDigestsOf, IsForgotten, IsKeptOf, IsNoted, digest_mapped, places_at};
ghost use Rattle.block_digests.specs.steps.Index.{IsIndex, kept_in, position};
ghost use Rattle.block_digests.specs.steps.Mended.{AreMended, AreMendedOrSame, digest_among, events_at, fresh_digest, is_rise, mended, rows_at};

use crate::arrivals::Arrivals;
use crate::block::{block_of, digest_of_rows};
use crate::laws::blocks_change_by_events;
use attributes::Sequenced;
use sha2::{Digest, Sha256};
use std::alloc::{AllocError, Global};
use std::collections::{BTreeMap, BTreeSet};
use std::marker::Model;

/// The places of a block's events, and its digest, none where it is stale.
#[derive(Drop)]
struct Block {
    places: Vec<u64>,
    digest: Option<[u8; 32]>,
}

impl Model for Block {
    ghost use Rattle.block_digests.specs.Kept.{KeptBlock};

    ghost Value = { KeptBlock };

    ghost view = { λ b. record { places = b.places.items; digest = b.digest } };
}

/// The blocks of events that come one after another: where each stands that came, and the digests
/// of blocks to which nothing has come since they were made.
///
/// Contracts see what is kept for a source and the number of a block.
#[derive(Drop)]
pub struct Blocks {
    index: BTreeMap<String, BTreeMap<u64, u64>>,
    blocks: Vec<Block>,
    alloc: Global,
}

impl Model for Blocks {
    ghost use Rattle.std.specs.Prelude.{vec_len};
    ghost use Rattle.block_digests.specs.Kept.{KeptBlocks};
    ghost use Rattle.block_digests.specs.steps.Index.{IsIndex, kept_in};

    ghost Value = { KeptBlocks };

    ghost view = { λ s. kept_in s.index s.blocks.items };

    ghost invariant = { λ s. IsIndex s.index (vec_len s.blocks) };
}

/// The numbers and texts of a block's events at places, in order, each once.
fn rows_at<'a, E: Arrivals>(
    alloc: Global,
    events: &'a E,
    places: &[u64],
) -> Result<BTreeSet<(u64, &'a str)>, AllocError>
    ensures { IfOk result (λ set.
        map (λ r. (r.0, r.1.now)) set.keys ≡ rows_at (E.arrivals events.now) places.now) }
{
    let mut set = BTreeSet::new(alloc);
    for i in 0..places.len() {
        if let Some(event) = events.arrival(places[i]) {
            set.insert((event.number().number(), event.event().text()))?;
        }
    }
    Ok(set)
}

/// Whether a block's events stand at both places, the first before the second by number, then text.
fn is_rise<E: Arrivals>(events: &E, first: u64, second: u64) -> bool
    ensures { result ≡ is_rise (E.arrivals events.now) first second }
{
    let Some(lower) = events.arrival(first) else {
        return false;
    };
    let Some(upper) = events.arrival(second) else {
        return false;
    };
    let (low, high) = (lower.number().number(), upper.number().number());
    low < high || low == high && lower.event().text() < upper.event().text()
}

/// Whether a block's events at places rise by number and then text, as those do that come as their
/// producer wrote them. It takes no memory; most events cost a look at their number.
fn are_rising<E: Arrivals>(events: &E, places: &[u64]) -> bool
    ensures { result ≡ true → IsStrictlySortedBy line_cmp
        (events_at (E.arrivals events.now) places.now) }
{
    for i in 0..places.len() {
        if i + 1 < places.len() && !is_rise(events, places[i], places[i + 1]) {
            return false;
        }
    }
    true
}

/// A block's digest: SHA-256 of the texts at places, each followed by a line feed. Takes no memory.
fn digest_as_they_stand<E: Arrivals>(events: &E, places: &[u64]) -> [u8; 32]
    ensures { result ≡ sha256 (lines (events_at (E.arrivals events.now) places.now)) }
{
    let mut hasher = Sha256::new();
    for i in 0..places.len() {
        if let Some(event) = events.arrival(places[i]) {
            hasher.update(event.event().text());
            hasher.update("\n");
        }
    }
    hasher.finalize()
}

impl Block {
    /// A block without places of events.
    fn empty(alloc: Global) -> Block
        ensures places { result.places ≡ [] }
        ensures digest { result.digest ≡ None }
    {
        Block {
            places: Vec::new(alloc),
            digest: None,
        }
    }

    /// Adds a place of an event to the block, by which its digest is stale.
    fn add(&mut self, place: u64) -> Result<(), AllocError>
        ensures places { OnOk result (self.new.places ≡ self.old.places ++ place ∷ []) }
        ensures digest { OnOk result (self.new.digest ≡ None) }
        ensures err { OnErr result (self.new ≡ self.old) }
    {
        self.places.push(place)?;
        self.digest = None;
        Ok(())
    }

    /// The block without its last place, by which its digest is stale.
    fn remove(&mut self)
        ensures places { self.new.places
            ≡ take (length self.old.places - 1) self.old.places }
        ensures digest { self.new.digest ≡ None }
    {
        self.places.pop();
        self.digest = None;
    }

    /// The block's digest, which is made where it is stale, unless there are no places.
    fn digest<E: Arrivals>(&self, alloc: Global, events: &E) -> Result<Option<[u8; 32]>, AllocError>
        ensures { IfOk result (λ d. d ≡ fresh_digest (E.arrivals events.now) self.now) }
    {
        if let Some(digest) = self.digest {
            return Ok(Some(digest));
        }
        if self.places.is_empty() {
            return Ok(None);
        }
        if are_rising(events, &self.places) {
            return Ok(Some(digest_as_they_stand(events, &self.places)));
        }
        let rows = rows_at(alloc, events, &self.places)?;
        Ok(Some(digest_of_rows(&rows)))
    }

    /// Makes the block's digest where it is stale, unless there are no places.
    fn mend<E: Arrivals>(&mut self, alloc: Global, events: &E) -> Result<(), AllocError>
        ensures ok { OnOk result (self.new ≡ mended (E.arrivals events.now) self.old) }
        ensures err { OnErr result (self.new ≡ self.old) }
    {
        self.digest = self.digest(alloc, events)?;
        Ok(())
    }
}

/// Where a block of a source stands among those that are kept with digests.
fn position(index: &BTreeMap<String, BTreeMap<u64, u64>>, source: &str, k: u64) -> Option<u64>
    ensures { result ≡ position index.now source.now k }
{
    match index.get(source) {
        Some(blocks) => blocks.get(&k).copied(),
        None => None,
    }
}

/// Says where a block of a source, kept with its digest, stands from now on.
fn insert_position(
    alloc: Global,
    index: &mut BTreeMap<String, BTreeMap<u64, u64>>,
    source: &str,
    k: u64,
    i: u64,
) -> Result<(), AllocError>
    ensures ok { OnOk result ((s : List ℕ) (j : ℕ) → position index.new s j
        ≡ (if bytes_eq s source.now && (j == k) then Some i else position index.old s j)) }
    ensures err { OnErr result ((s : List ℕ) (j : ℕ)
        → position index.new s j ≡ position index.old s j) }
{
    if let Some(blocks) = index.get_mut(source) {
        blocks.insert(k, i)?;
        return Ok(());
    }
    let mut first = BTreeMap::new(alloc);
    first.insert(k, i)?;
    let key = String::from_str(alloc, source)?;
    index.insert(key, first)?;
    Ok(())
}

/// Where a block of a source stands among those kept with digests; made where it isn't there.
fn find_or_make(
    alloc: Global,
    index: &mut BTreeMap<String, BTreeMap<u64, u64>>,
    blocks: &mut Vec<Block>,
    source: &str,
    k: u64,
) -> Result<u64, AllocError>
    requires { IsIndex index.old (vec_len blocks.old) }
    ensures index { IsIndex index.new (vec_len blocks.new) }
    ensures there { IfOk result (λ i. position index.new source.now k ≡ Some i) }
    ensures alike { KeepsDigests (kept_in index.old blocks.old.items)
        (kept_in index.new blocks.new.items) }
{
    if let Some(i) = position(index, source, k) {
        return Ok(i);
    }
    let i = blocks.len();
    blocks.reserve(1)?;
    insert_position(alloc, index, source, k, i as u64)?;
    let _ = blocks.push(Block::empty(alloc));
    Ok(i as u64)
}

/// The digests of a source's blocks.
fn digests_among<E: Arrivals>(
    alloc: Global,
    index: &BTreeMap<u64, u64>,
    blocks: &[Block],
    events: &E,
) -> Result<BTreeMap<u64, [u8; 32]>, AllocError>
    ensures { IfOk result (λ m. (k : ℕ) → get nat_cmp m k
        ≡ digest_among (E.arrivals events.now) blocks.now (get nat_cmp index.now k)) }
{
    let mut digests = BTreeMap::new(alloc);
    for (k, i) in index {
        if let Some(block) = blocks.get(*i as usize) {
            if let Some(digest) = block.digest(alloc, events)? {
                digests.insert(*k, digest)?;
            }
        }
    }
    Ok(digests)
}

/// The digests of the blocks of all sources that have one.
fn digests_in<E: Arrivals>(
    alloc: Global,
    index: &BTreeMap<String, BTreeMap<u64, u64>>,
    blocks: &[Block],
    events: &E,
) -> Result<BTreeMap<String, BTreeMap<u64, [u8; 32]>>, AllocError>
    ensures found { IfOk result (λ m. (source : List ℕ) (k : ℕ) → digest_mapped m source k
        ≡ digest_among (E.arrivals events.now) blocks.now (position index.now source k)) }
    ensures of_sources { IfOk result (λ m. AllByRecursion (λ e. AreOfSource e.1) m.entries) }
    ensures in_order { IfOk result (λ m. IsStrictlySortedBy string_cmp (keys_of m.entries)) }
{
    let mut digests = BTreeMap::new(alloc);
    for (source, index) in index {
        let own = digests_among(alloc, index, blocks, events)?;
        if own.len() > 0 {
            let key = String::from_str(alloc, source.as_str())?;
            digests.insert(key, own)?;
        }
    }
    let _ordered = digests.len();
    Ok(digests)
}

/// Makes the digest of each block that is stale and has places of events.
fn mend_all<E: Arrivals>(
    alloc: Global,
    blocks: &mut Vec<Block>,
    events: &E,
) -> Result<(), AllocError>
    ensures len { vec_len blocks.new ≡ vec_len blocks.old }
    ensures ok { OnOk result (AreMended (E.arrivals events.now) blocks.old.items
        blocks.new.items) }
    ensures each { AreMendedOrSame (E.arrivals events.now) blocks.old.items blocks.new.items }
{
    for i in 0..blocks.len() {
        blocks[i].mend(alloc, events)?;
    }
    Ok(())
}

impl Blocks {
    /// The blocks of no events, and no digests. It takes no memory.
    pub fn empty(alloc: Global) -> Blocks
        ensures kept { IsKeptOf [] result }
        ensures digests { HasDigestsOf [] result }
    {
        Blocks {
            index: BTreeMap::new(alloc),
            blocks: Vec::new(alloc),
            alloc,
        }
    }

    /// The allocator that the memory of the blocks' digests comes from.
    pub fn allocator(&self) -> Global {
        self.alloc
    }

    /// How many blocks are kept with digests. There may be some without places of events.
    pub fn len(&self) -> u64
        ensures { result ≡ length self.now.blocks }
    {
        self.blocks.len() as u64
    }

    /// The places of the block that is kept as the i-th, from 0: those of one block of a source,
    /// ascending. The order of blocks is that in which they were first noted.
    pub fn places(&self, i: u64) -> &[u64]
        requires { i < length self.now.blocks }
        ensures { slice_get (map (λ b. b.places) self.now.blocks) i ≡ Some result.now }
    {
        &self.blocks[i as usize].places
    }

    /// The event that came stands at the place, behind all that came before: its block's digest is
    /// stale from now on, and the digests of the others stay. Time logarithmic in the sources and
    /// in the blocks of the source; a source is copied where it is new.
    pub fn note(&mut self, event: &Sequenced, place: u64) -> Result<(), AllocError>
        ensures noted { OnOk result (IsNoted event.now place self.old self.new) }
        ensures kept { (A : List EventValue) → AreEvents A → IsKeptOf A self.old
            → has key_cmp A event.now ≡ false → length A ≡ place
            → OnOk result (IsKeptOf (append_new key_cmp A (event.now ∷ [])) self.new) }
        ensures event { IsEvent event.now }
        ensures alike { OnErr result (KeepsDigests self.old self.new) }
        ensures same { (A : List EventValue) → IsKeptOf A self.old
            → OnErr result (IsKeptOf A self.new) }
    {
        let k = block_of(event.number());
        let source = event.event().source();
        let _event = event.event().text();
        blocks_change_by_events();
        let i = find_or_make(self.alloc, &mut self.index, &mut self.blocks, source, k)?;
        self.blocks[i as usize].add(place)
    }

    /// Takes back the last `note` of a block's event, this one, where it has come to nothing. It
    /// takes no memory. Time logarithmic in the sources and in the blocks of the source.
    pub fn forget(&mut self, event: &Sequenced)
        ensures forgotten { IsForgotten event.now self.old self.new }
        ensures kept { (A : List EventValue) → AreEvents A → has key_cmp A event.now ≡ false
            → IsKeptOf (append_new key_cmp A (event.now ∷ [])) self.old → IsKeptOf A self.new }
    {
        let k = block_of(event.number());
        let source = event.event().source();
        let _event = event.event().text();
        blocks_change_by_events();
        if let Some(i) = position(&self.index, source, k) {
            self.blocks[i as usize].remove();
        }
    }

    /// Makes the digest of each stale block, of the events as they came. On an error some may have
    /// been made. Time linear in the blocks, and for each stale one the hashing of its texts; where
    /// its events didn't come by number and then text, a sort of them and memory for their places
    /// too.
    pub fn mend<E: Arrivals>(&mut self, events: &E) -> Result<(), AllocError>
        ensures places { (source : List ℕ) (k : ℕ)
            → places_at self.new source k ≡ places_at self.old source k }
        ensures kept { AreEvents (E.arrivals events.now)
            → IsKeptOf (E.arrivals events.now) self.old
            → IsKeptOf (E.arrivals events.now) self.new }
        ensures digests { AreEvents (E.arrivals events.now)
            → IsKeptOf (E.arrivals events.now) self.old
            → OnOk result (HasDigestsOf (E.arrivals events.now) self.new) }
    {
        blocks_change_by_events();
        mend_all(self.alloc, &mut self.blocks, events)
    }

    /// The digests of all blocks, by source and the number of the block. Stale ones are made, and
    /// not kept. Time and memory linear in the sources and the blocks, but for a logarithm in the
    /// time, and those of `mend` for stale blocks.
    pub fn digests<E: Arrivals>(
        &self,
        events: &E,
    ) -> Result<BTreeMap<String, BTreeMap<u64, [u8; 32]>>, AllocError>
        ensures { AreEvents (E.arrivals events.now) → IsKeptOf (E.arrivals events.now) self.now
            → IfOk result (λ m. AreDigestsOf (E.arrivals events.now) m) }
    {
        blocks_change_by_events();
        digests_in(self.alloc, &self.index, &self.blocks, events)
    }
}
