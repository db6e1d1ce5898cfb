//! The inbox: a set of events.

ghost use Rattle.std.specs.Prelude.{◌≡◌, ◌≢◌, ◌+◌, ◌<◌, ◌≤◌, ◌∷◌, ◌++◌, [], Ok, drop, false, filter, is_ok, length, map, slice_get, take, true, IfOk, IfErr, IfSome, IfNone, OnOk, OnErr, Some, if◌then◌else◌};
ghost use Rattle.attributes.specs.Event.{EventValue};
ghost use Rattle.inbox.specs.Conflicts.{conflict_of, conflicts, conflicts_of, is_first_of_several, of_key};
ghost use Rattle.inbox.specs.Kept.{Adds, HaveCome, IsThere, IsGrownBy, LacksAt, answer_to, events, prefix};
ghost use Rattle.inbox.specs.KeyOrder.{key_cmp};
ghost use Rattle.inbox.specs.Ordered.{IsGapFor, has};
ghost use Rattle.inbox.specs.Sets.{AreEvents};
ghost use Rattle.inbox.specs.Shown.{IsShownOf, NoneHas, is_shown, shown};
ghost use Rattle.inbox.specs.declared.inbox.Taken.TheVariants.{Again};

use crate::conflict::{Conflict, Conflicts};
use crate::places::Places;
use crate::search::{event_at, find, first_of, have_same_key, position_at};
use attributes::{Batch, Sequenced, Text};
use std::alloc::{AllocError, Global};
use std::marker::Model;

/// Whether an event is new to a set, or was there.
#[derive(Clone, Copy, Debug, PartialEq, Eq)]
pub enum Taken {
    New,
    Again,
}

/// An event that was not taken, for want of memory.
#[derive(Drop)]
pub struct Back {
    pub event: Sequenced,
}

/// How many events of a list were new, and how many were there.
#[derive(Clone, Copy, Debug, PartialEq, Eq)]
pub struct Counts {
    pub fresh: u64,
    pub repeated: u64,
}

/// Want of memory after the first `taken` events of a list, of which `fresh` were new.
#[derive(Clone, Copy, Debug, PartialEq, Eq)]
pub struct Short {
    pub taken: u64,
    pub fresh: u64,
}

/// A set of events. Contracts see the events in the order in which they came, and for how many more
/// there is room; `events` of that is the set, in key order: by source, then id, then canonical
/// text, all as bytes.
#[derive(Drop)]
pub struct Inbox {
    arrivals: Vec<Sequenced>,
    places: Places,
}

impl Model for Inbox {
    ghost use Rattle.std.specs.Prelude.{vec_len};
    ghost use Rattle.std.specs.Vec.{vec_capacity};
    ghost use Rattle.inbox.specs.Codes.{kept_code};
    ghost use Rattle.inbox.specs.Kept.{Kept};
    ghost use Rattle.inbox.specs.KeyOrder.{key_cmp};
    ghost use Rattle.inbox.specs.Sets.{AreEvents};
    ghost use Rattle.inbox.specs.steps.Reads.{ReadsInOrder};
    ghost use Rattle.inbox.specs.steps.Room.{spare_in};
    ghost use Rattle.inbox.specs.steps.Woven.{order};

    ghost Value = { Kept };

    ghost coded = { kept_code };

    ghost view = { λ a. record {
      arrivals = a.arrivals.items;
      spare = spare_in (vec_capacity a.arrivals) (vec_len a.arrivals) a.places.room;
    } };

    ghost invariant = { λ a. ReadsInOrder key_cmp a.arrivals.items (order a.places)
        × AreEvents a.arrivals.items };
}

impl Inbox {
    /// An inbox without events. It takes no memory.
    pub fn empty(alloc: Global) -> Inbox
        ensures { result.arrivals ≡ [] }
    {
        Inbox {
            arrivals: Vec::new(alloc),
            places: Places::empty(alloc),
        }
    }

    /// How many events `put` can add to the inbox before the next `reserve`.
    pub fn spare(&self) -> u64
        ensures { result ≡ self.now.spare }
    {
        let events = self.arrivals.capacity() - self.arrivals.len();
        events.min(self.places.room_left()) as u64
    }

    /// Makes room in the inbox for n more events. Where it has room for them, it takes no memory.
    pub fn reserve(&mut self, n: u64) -> Result<(), AllocError>
        ensures same { self.new.arrivals ≡ self.old.arrivals }
        ensures room { OnOk result (n ≤ self.new.spare) }
        ensures err { OnErr result (self.old.spare < n) }
        ensures kept { self.old.spare ≤ self.new.spare }
    {
        self.arrivals.reserve(n as usize)?;
        self.places.reserve(n as usize)?;
        Ok(())
    }

    /// How many events the inbox has.
    pub fn len(&self) -> u64
        ensures { result ≡ length (events self.now) }
    {
        self.places.len() as u64
    }

    /// The inbox's event at place i of key order. The time grows with the logarithm of the number
    /// of events.
    pub fn at(&self, i: u64) -> &Sequenced
        requires { i < length (events self.now) }
        ensures { slice_get (events self.now) i ≡ Some result.now }
    {
        event_at(&self.arrivals, &self.places, i as usize)
    }

    /// The place of an event in the inbox's key order: `Ok` where it stands, `Err` where it would
    /// go. The time grows with the logarithm of the number of events.
    pub fn place_of(&self, event: &Sequenced) -> Result<u64, u64>
        ensures there { IfOk result (λ i. slice_get (events self.now) i ≡ Some event.now) }
        ensures gap { IfErr result (λ i. IsGapFor key_cmp (events self.now) event.now i) }
        ensures known { is_ok result ≡ has key_cmp self.now.arrivals event.now }
    {
        // The count bounds the sum below.
        let _len = self.places.len();
        match find(&self.arrivals, &self.places, event) {
            Ok(at) => Ok(at as u64),
            Err(gap) => Err((gap.before + gap.late) as u64),
        }
    }

    /// Adds an event to the inbox, for which there must be room, unless it is there. It takes no
    /// memory. The time is that of `place_of` and of a move of mostly at most 2,048 positions;
    /// about one new event in 2,048 goes over all positions.
    pub fn put(&mut self, event: Sequenced) -> Taken
        requires { 0 < self.old.spare }
        ensures arrivals { HaveCome (event ∷ []) self.old self.new }
        ensures set { Adds (event ∷ []) self.old self.new }
        ensures answer { result ≡ answer_to self.old event }
        ensures room { self.old.spare ≤ self.new.spare + 1 }
        ensures again { IsThere self.old event → self.new ≡ self.old }
    {
        match find(&self.arrivals, &self.places, &event) {
            Ok(_) => Taken::Again,
            Err(gap) => {
                let position = self.arrivals.len();
                let _ = self.arrivals.push(event);
                self.places.insert(gap.before, gap.late, position);
                Taken::New
            }
        }
    }

    /// Adds an event to the inbox, if there is memory for it, unless it is there; that is found
    /// without memory. Memory is wanted only where there is no room that was made before. The time
    /// is that of `put`, and where the inbox grows, a copy of all positions.
    pub fn take(&mut self, event: Sequenced) -> Result<Taken, Back>
        ensures arrivals { OnOk result (HaveCome (event ∷ []) self.old self.new) }
        ensures set { OnOk result (Adds (event ∷ []) self.old self.new) }
        ensures answer { IfOk result (λ taken. taken ≡ answer_to self.old event) }
        ensures room { self.old.spare ≤ self.new.spare + 1 }

        // An event that is there needs no memory.
        ensures again { IsThere self.old event → (result ≡ Ok Again) × (self.new ≡ self.old) }

        ensures same { OnErr result (self.new.arrivals ≡ self.old.arrivals) }
        ensures spare { OnErr result (self.old.spare ≡ 0) }
        ensures back { IfErr result (λ back. back.event ≡ event) }
    {
        if self.spare() == 0 {
            if self.place_of(&event).is_ok() {
                return Ok(Taken::Again);
            }
            if self.reserve(1).is_err() {
                return Err(Back { event });
            }
        }
        Ok(self.put(event))
    }

    /// How many events came to the inbox, each counted once.
    pub fn arrived(&self) -> u64
        ensures count { result ≡ length self.now.arrivals }
        ensures events { AreEvents self.now.arrivals }
    {
        self.arrivals.len() as u64
    }

    /// The event that came to the inbox as the i-th, from 0.
    pub fn arrived_at(&self, i: u64) -> &Sequenced
        requires { i < length self.now.arrivals }
        ensures { slice_get self.now.arrivals i ≡ Some result.now }
    {
        &self.arrivals[i as usize]
    }

    /// The place among what came to the inbox, from 0, of the event at place i of key order:
    /// `arrived_at` of it is that event. The time grows with the logarithm of the number of events.
    pub fn came_at(&self, i: u64) -> u64
        requires { i < length (events self.now) }
        ensures { slice_get self.now.arrivals result ≡ slice_get (events self.now) i }
    {
        position_at(&self.arrivals, &self.places, i as usize) as u64
    }

    /// Whether the inbox's event at place i of key order is shown: whether it has the least text of
    /// its source and id. The time grows with the logarithm of the number of events.
    pub fn is_shown(&self, i: u64) -> bool
        requires { i < length (events self.now) }
        ensures { (e : EventValue) → slice_get (events self.now) i ≡ Some e
            → result ≡ is_shown (events self.now) e }
    {
        if i == 0 {
            return true;
        }
        !have_same_key(self.at(i - 1), self.at(i))
    }

    /// The inbox's shown event of a source and an id, where there is one. The time grows with the
    /// logarithm of the number of events.
    pub fn shown_of(&self, source: &str, id: &str) -> Option<&Sequenced>
        ensures some { IfSome result (λ e. IsShownOf (events self.now) source.now id.now e.now) }
        ensures none { IfNone result (NoneHas (events self.now) source.now id.now) }
    {
        first_of(&self.arrivals, &self.places, source, id)
    }

    /// Copies of the inbox's shown events, in key order. Memory is wanted only where it has events.
    pub fn shown(&self) -> Result<Batch, AllocError>
        ensures ok { IfOk result (λ batch. batch ≡ shown (events self.now)) }
        ensures err { OnErr result (0 < length (events self.now)) }
    {
        let mut batch = Batch::empty(*self.arrivals.allocator());
        for i in 0..self.len() {
            if self.is_shown(i) {
                batch.push(self.at(i).copy()?)?;
            }
        }
        Ok(batch)
    }

    /// Copies of all events of the inbox, in key order. Memory is wanted only where it has events.
    pub fn events(&self) -> Result<Batch, AllocError>
        ensures ok { IfOk result (λ batch. batch ≡ events self.now) }
        ensures err { OnErr result (0 < length (events self.now)) }
    {
        let mut batch = Batch::empty(*self.arrivals.allocator());
        for i in 0..self.len() {
            batch.push(self.at(i).copy()?)?;
        }
        Ok(batch)
    }

    /// How many events of the inbox have the key of the event at place i, which is the first of
    /// them, and with it the places from i on. Goes over them.
    pub fn key_len(&self, i: u64) -> u64
        requires in_range { i < length (events self.now) }
        requires first { (e : EventValue) → slice_get (events self.now) i ≡ Some e
            → is_shown (events self.now) e ≡ true }
        ensures fits { i + result ≤ length (events self.now) }
        ensures run { (e : EventValue) → slice_get (events self.now) i ≡ Some e
            → of_key (events self.now) e ≡ take result (drop i (events self.now)) }
    {
        let rest = self.len() - i;
        for n in 1..rest {
            if !have_same_key(self.at(i + n), self.at(i)) {
                return n;
            }
        }
        rest
    }

    /// Copies of the inbox's n events from place i of key order on.
    fn copies(&self, i: u64, n: u64) -> Result<Batch, AllocError>
        requires fits { i + n ≤ length (events self.now) }
        ensures { IfOk result (λ batch. batch ≡ take n (drop i (events self.now))) }
    {
        let mut batch = Batch::empty(*self.arrivals.allocator());
        // The count bounds the sum below.
        let _len = self.len();
        for k in 0..n {
            batch.push(self.at(i + k).copy()?)?;
        }
        Ok(batch)
    }

    /// The conflict of the inbox's n events from place i on, which are those of a key.
    fn conflict_at(&self, i: u64, n: u64) -> Result<Conflict, AllocError>
        requires in_range { i < length (events self.now) }
        requires fits { i + n ≤ length (events self.now) }
        requires run { (e : EventValue) → slice_get (events self.now) i ≡ Some e
            → of_key (events self.now) e ≡ take n (drop i (events self.now)) }
        ensures { IfOk result (λ conflict. (e : EventValue) → slice_get (events self.now) i ≡ Some e
            → conflict ≡ conflict_of (events self.now) e) }
    {
        let alloc = *self.arrivals.allocator();
        let event = self.at(i).event();
        let source = Text::of(alloc, event.source())?;
        let id = Text::of(alloc, event.id())?;
        let events = self.copies(i, n)?;
        Ok(Conflict { source, id, events })
    }

    /// Adds the conflict of the key of the inbox's event at place i, if it is the first of several.
    fn add_conflict(&self, conflicts: &mut Conflicts, i: u64) -> Result<(), AllocError>
        requires in_range { i < length (events self.now) }
        ensures ok { OnOk result ((e : EventValue) → slice_get (events self.now) i ≡ Some e
            → conflicts.new ≡ conflicts.old ++ conflicts_of (events self.now) (e ∷ [])) }
        ensures err { OnErr result ((e : EventValue) → slice_get (events self.now) i ≡ Some e
            → is_first_of_several (events self.now) e ≡ true) }
    {
        if !self.is_shown(i) {
            return Ok(());
        }
        let n = self.key_len(i);
        if n > 1 {
            conflicts.push(self.conflict_at(i, n)?)?;
        }
        Ok(())
    }

    /// The keys that two or more events have, in key order, each with its events in the order of
    /// their texts. Goes over all events, and copies those in conflict.
    pub fn conflicts(&self) -> Result<Conflicts, AllocError>
        ensures ok { IfOk result (λ list. list ≡ conflicts (events self.now)) }

        // Memory is wanted for conflicts alone.
        ensures err { OnErr result (conflicts (events self.now) ≢ []) }
    {
        let mut conflicts = Conflicts::empty(*self.arrivals.allocator());
        for i in 0..self.len() {
            self.add_conflict(&mut conflicts, i)?;
        }
        Ok(conflicts)
    }

    /// Adds a copy of an event to the inbox, unless it is there.
    fn take_copy(&mut self, event: &Sequenced) -> Result<(), AllocError>
        ensures ok { OnOk result (HaveCome (event.now ∷ []) self.old self.new) }
        ensures same { OnErr result (self.new.arrivals ≡ self.old.arrivals) }
        ensures err { OnErr result (has key_cmp self.old.arrivals event.now ≡ false) }
    {
        if self.place_of(event).is_ok() {
            return Ok(());
        }
        match self.take(event.copy()?) {
            Ok(_) => Ok(()),
            Err(_) => Err(AllocError),
        }
    }

    /// Takes copies of the other inbox's events, in key order; those that are there are not copied,
    /// and need no memory. After a refusal those before it stay. The time is that of `take` for
    /// each event.
    pub fn merge(&mut self, other: &Inbox) -> Result<Counts, Short>
        ensures arrivals { OnOk result (HaveCome (events other.now) self.old self.new) }
        ensures set { OnOk result (Adds (events other.now) self.old self.new) }
        ensures fresh { IfOk result (λ n. IsGrownBy n.fresh self.old self.new) }
        ensures repeated { IfOk result (λ n. n.fresh + n.repeated ≡ length (events other.now)) }
        ensures short { IfErr result (λ s. HaveCome (prefix s.taken other.now) self.old self.new) }
        ensures short_set { IfErr result (λ s. Adds (prefix s.taken other.now) self.old self.new) }
        ensures short_fresh { IfErr result (λ s. IsGrownBy s.fresh self.old self.new) }
        ensures short_taken { IfErr result (λ s. s.taken < length (events other.now)) }

        // Memory was wanted for a new event.
        ensures short_of_new { IfErr result (λ s. LacksAt self.new (events other.now) s.taken) }
    {
        let before = self.arrived();
        for i in 0..other.len() {
            let Ok(_) = self.take_copy(other.at(i)) else {
                return Err(Short {
                    taken: i,
                    fresh: self.arrived() - before,
                });
            };
        }
        let fresh = self.arrived() - before;
        Ok(Counts {
            fresh,
            repeated: other.len() - fresh,
        })
    }
}
