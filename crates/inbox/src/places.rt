//! Positions in an order that grows by inserts.

ghost use Rattle.std.specs.Prelude.{ℕ, ◌≡◌, ◌≢◌, IfSome, IfNone, ◌+◌, ◌-◌, ◌<◌, ◌≤◌, [], ◌∷◌, ◌++◌, length, slice_get, take, drop, Some, OnOk, OnErr};
ghost use Rattle.std.specs.List.{insert};
ghost use Rattle.std.specs.Vec.{vec_capacity, vec_len};
ghost use Rattle.inbox.specs.declared.places.Late.{Late};
ghost use Rattle.inbox.specs.steps.Woven.{IsAmong, IsLateBehind, IsElsewhere, IsLateAt, Rise, StandsAt, order, up_to_late, woven};

use std::alloc::{AllocError, Global};
use std::marker::Model;
use std::mem;

/// How many late positions there may be before they are settled.
const LATE: usize = 2048;

/// A late position, and how many settled positions stand before it.
#[derive(Clone, Copy)]
pub(crate) struct Late {
    pub(crate) before: usize,
    pub(crate) position: usize,
}

/// Positions in an order: settled ones in a row, and late ones, each with how many settled
/// positions stand before it. An insert moves late positions alone, which are mostly 2,048 at most
/// and never more than 4,094. Where there is no room for another, all are written to the second
/// buffer in their order, and the two are swapped: about one insert in 2,048 goes over all.
#[derive(Drop)]
pub(crate) struct Places {
    settled: Vec<usize>,
    late: Vec<Late>,
    other: Vec<usize>,
}

impl Model for Places {
    ghost use Rattle.std.specs.Prelude.{length, vec_len};
    ghost use Rattle.std.specs.Vec.{vec_capacity};
    ghost use Rattle.inbox.specs.steps.Room.{room_in};
    ghost use Rattle.inbox.specs.steps.Woven.{Placed, HasRoom, Rise};

    ghost Value = { Placed };

    ghost view = { λ p. record {
      settled = p.settled.items;
      late = p.late.items;
      room = room_in (vec_capacity p.settled) (vec_capacity p.other)
          (vec_len p.settled) (vec_len p.late);
    } };

    ghost invariant = { λ p. Rise 0 (length p.settled.items) p.late.items
        × HasRoom (vec_len p.settled) (vec_len p.late)
        (vec_capacity p.settled) (vec_capacity p.other)
        (vec_capacity p.late) };
}

/// Appends an inbox's settled positions from a place on that stand before a late one, and that one.
fn push_to(settled: &[usize], from: usize, late: Late, all: &mut Vec<usize>)
    requires low { from ≤ late.before }
    requires high { late.before ≤ length settled.now }
    requires room { vec_len all.old + (late.before - from) + 1 ≤ vec_capacity all.old }
    ensures items { all.new.items ≡ all.old.items ++ up_to_late from settled.now late }
    ensures len { vec_len all.new ≡ vec_len all.old + (late.before - from) + 1 }
    ensures capacity { vec_capacity all.old ≤ vec_capacity all.new }
{
    let _ = all.extend_from_slice(&settled[from..late.before]);
    let _ = all.push(late.position);
}

/// Makes a list of an inbox's settled positions with the late ones among them.
fn weave(settled: &[usize], late: &[Late], all: &mut Vec<usize>)
    requires room { length settled.now + length late.now ≤ vec_capacity all.old }
    requires empty { vec_len all.old ≡ 0 }
    requires rise { Rise 0 (length settled.now) late.now }
    ensures woven { all.new.items ≡ woven 0 settled.now late.now }
    ensures len { vec_len all.new ≡ length settled.now + length late.now }
    ensures capacity { vec_capacity all.old ≤ vec_capacity all.new }
{
    let mut from = 0;
    for i in 0..late.len() {
        let next = late[i];
        push_to(settled, from, next, all);
        from = next.before;
    }
    let _ = all.extend_from_slice(&settled[from..]);
}

/// Makes room for the late positions among so many of an inbox, of which 2,048 are enough.
fn make_room(late: &mut Vec<Late>, wanted: usize) -> Result<(), AllocError>
    ensures items { late.new.items ≡ late.old.items }
    ensures len { vec_len late.new ≡ vec_len late.old }
    ensures capacity { vec_capacity late.old ≤ vec_capacity late.new }
    ensures ok { OnOk result (0 < wanted → 0 < vec_capacity late.new) }
{
    let least = wanted.min(LATE);
    if late.capacity() < least {
        late.reserve(least - late.len())?;
    }
    Ok(())
}

/// How many late positions are among the first i of all in an inbox's order.
fn late_among(late: &[Late], i: usize) -> usize
    ensures within { result ≤ length late.now }
    ensures before { (k : ℕ) → k + 1 ≡ result → IsAmong late.now k i }
    ensures after { IsLateBehind late.now result i }
    ensures few { result ≤ i }
{
    let mut low = 0;
    let mut high = late.len();
    while low < high {
        let mid = low + (high - low) / 2;
        if mid < i && late[mid].before < i - mid {
            low = mid + 1;
        } else {
            high = mid;
        }
    }
    low
}

/// The late position at place i of an inbox's order, behind so many late ones, if one stands there.
fn late_position(late: &[Late], among: usize, i: usize) -> Option<usize>
    requires few { among ≤ i }
    ensures some { IfSome result (λ p. IsLateAt late.now among i p) }
    ensures none { IfNone result (IsElsewhere late.now among i) }
{
    if among >= late.len() {
        return None;
    }
    let next = late[among];
    if next.before == i - among {
        Some(next.position)
    } else {
        None
    }
}

impl Places {
    /// The order of an inbox without positions. It takes no memory.
    pub(crate) fn empty(alloc: Global) -> Places
        ensures settled { result.settled ≡ [] }
        ensures late { result.late ≡ [] }
    {
        Places {
            settled: Vec::new(alloc),
            late: Vec::new(alloc),
            other: Vec::new(alloc),
        }
    }

    /// How many positions the inbox's order has.
    pub(crate) fn len(&self) -> usize
        ensures { result ≡ length (order self.now) }
    {
        self.settled.len() + self.late.len()
    }

    /// The position at place i of the inbox's order. The time grows with the logarithm of the
    /// number of late positions.
    pub(crate) fn at(&self, i: usize) -> usize
        requires { i < length (order self.now) }
        ensures { slice_get (order self.now) i ≡ Some result }
    {
        let late = late_among(&self.late, i);
        match late_position(&self.late, late, i) {
            Some(position) => position,
            None => self.settled[i - late],
        }
    }

    /// How many positions of the inbox's order are settled.
    pub(crate) fn settled_len(&self) -> usize
        ensures { result ≡ length self.now.settled }
    {
        self.settled.len()
    }

    /// The settled position at a place among the settled ones of the inbox's order.
    pub(crate) fn settled_at(&self, i: usize) -> usize
        requires { i < length self.now.settled }
        ensures { slice_get self.now.settled i ≡ Some result }
    {
        self.settled[i]
    }

    /// How many positions of the inbox's order are late.
    pub(crate) fn late_len(&self) -> usize
        ensures len { result ≡ length self.now.late }
        ensures rise { Rise 0 (length self.now.settled) self.now.late }
    {
        self.late.len()
    }

    /// The late position at a place among the late ones of the inbox's order.
    pub(crate) fn late_at(&self, i: usize) -> Late
        requires { i < length self.now.late }
        ensures { slice_get self.now.late i ≡ Some result }
    {
        self.late[i]
    }

    /// For how many more positions there is room in the inbox's order.
    pub(crate) fn room_left(&self) -> usize
        ensures { result ≡ self.now.room }
    {
        self.settled.capacity().min(self.other.capacity()) - (self.settled.len() + self.late.len())
    }

    /// Makes room for n more of an inbox's positions. It never falls; the second buffer is emptied.
    pub(crate) fn reserve(&mut self, n: usize) -> Result<(), AllocError>
        ensures settled { self.new.settled ≡ self.old.settled }
        ensures late { self.new.late ≡ self.old.late }
        ensures ok { OnOk result (n ≤ self.new.room) }
        ensures err { OnErr result (self.old.room < n) }
        ensures kept { self.old.room ≤ self.new.room }
    {
        if n <= self.room_left() {
            return Ok(());
        }
        let Some(wanted) = self.len().checked_add(n) else {
            return Err(AllocError);
        };
        make_room(&mut self.late, wanted)?;
        self.settled.reserve(wanted - self.settled.len())?;
        self.other.clear();
        self.other.reserve(wanted)?;
        Ok(())
    }

    /// Settles the late positions of the inbox's order.
    fn settle(&mut self)
        requires { 0 < self.old.room }
        ensures settled { self.new.settled ≡ order self.old }
        ensures late { self.new.late ≡ [] }
        ensures room { self.old.room ≤ self.new.room }
    {
        self.other.clear();
        weave(&self.settled, &self.late, &mut self.other);
        mem::swap(&mut self.settled, &mut self.other);
        self.late.clear();
    }

    /// Puts an inbox's position behind so many settled ones and so many late ones.
    pub(crate) fn insert(&mut self, before: usize, late: usize, position: usize)
        requires room { 0 < self.old.room }
        requires gap { StandsAt self.old before late }
        ensures order { order self.new ≡ insert (order self.old) (before + late) position }
        ensures room { self.old.room ≤ self.new.room + 1 }
    {
        if self.late.len() == self.late.capacity() {
            self.settle();
            let before = before + late;
            let _ = self.late.insert(0, Late { before, position });
        } else {
            let _ = self.late.insert(late, Late { before, position });
        }
    }
}
