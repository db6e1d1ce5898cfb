//! The views, kept.

ghost use Rattle.std.specs.Prelude.{◌≡◌, ◌∷◌, ◌++◌, ◌<◌, ◌≤◌, [], IfOk, None, OnErr, OnOk, Some, false, replicate, true};
ghost use Rattle.std.specs.Option.{option_map};
ghost use Rattle.attributes.specs.Event.{kind_of};
ghost use Rattle.inbox.specs.Kept.{events};
ghost use Rattle.inbox.specs.KeyOrder.{key_cmp};
ghost use Rattle.inbox.specs.Ordered.{IsGapFor, append_new, has};
ghost use Rattle.inbox.specs.Sets.{set_of};
ghost use Rattle.inbox.specs.Shown.{is_shown};
ghost use Rattle.views.specs.Tally.{kind_and_day};
ghost use Rattle.kept_views.specs.Tables.{KindDay, AreTablesOfShown};
ghost use Rattle.kept_views.specs.steps.Moves.{ComesIn, GoesOut, count_in, day_count_in, slot_apart};
ghost use Rattle.kept_views.specs.steps.Seen.{day_in, slot_in};

use crate::days::{DayKey, DayTally, day_of, lower_day, raise_day};
use crate::entities::{Entities, Slot, bring, clear, slot_of};
use crate::gap::has_key_of;
use crate::seed::Seed;
use crate::tally::{Tally, lower, raise};
use attributes::Sequenced;
use attributes::laws::text_tells_events;
use inbox::Inbox;
use indexmap::IndexMap;
use std::alloc::{AllocError, Global};
use std::hash::RandomState;
use std::marker::Model;

/// Views of what came to an inbox, kept event by event: the types of the shown events with how many
/// have each, the same by UTC day for those with a time, and for each source and subject the rows
/// of its shown events by number, then id. Contracts see these tables, whose order says nothing.
#[derive(Drop)]
pub struct Views {
    pub(crate) kinds: Tally,
    pub(crate) days: DayTally,
    pub(crate) entities: Entities,
    pub(crate) alloc: Global,
}

impl Model for Views {
    ghost use Rattle.kept_views.specs.Tables.{Tables};

    ghost Value = { Tables };

    ghost use Rattle.kept_views.specs.steps.Seen.{days_in, kinds_in, entities_in, states_in};

    ghost view = { λ v. record {
      kinds = kinds_in v.kinds.entries;
      days = days_in v.days.entries;
      entities = entities_in v.entities.entries;
      states = states_in v.kinds v.days v.entities;
    } };
}

/// The kept slot of an event, unless another event has the same.
fn slot_apart(
    alloc: Global,
    event: &Sequenced,
    other: &Sequenced,
) -> Result<Option<Slot>, AllocError>
    ensures { IfOk result (λ slot. option_map slot_in slot ≡ slot_apart event.now other.now) }
{
    if event.event().subject() == other.event().subject() && event.number() == other.number() {
        return Ok(None);
    }
    slot_of(alloc, event)
}

impl Views {
    /// Kept views of no events. Keys are hashed by the random state, which nobody else knows, so
    /// events from outside may come. They take no memory.
    pub fn with_hasher(alloc: Global, state: RandomState) -> Views
        ensures stands { AreTablesOfShown [] result }
        ensures states { result.states ≡ replicate 3 (Some state) }
    {
        Views::with_seed(alloc, Seed::random(state))
    }

    /// The views of no events, for events whose sources, subjects and types one trusts: the hash of
    /// a key is known to everybody, and whoever picks keys that collide makes each `put` take time
    /// in proportion to them. What takes events from outside calls `with_hasher`. They take no
    /// memory.
    pub fn empty(alloc: Global) -> Views
        ensures stands { AreTablesOfShown [] result }
        ensures states { result.states ≡ replicate 3 None }
    {
        Views::with_seed(alloc, Seed::known())
    }

    /// Kept views of no events, whose keys are hashed by a seed.
    fn with_seed(alloc: Global, seed: Seed) -> Views
        ensures stands { AreTablesOfShown [] result }
        ensures states { result.states ≡ replicate 3 seed.state }
    {
        Views {
            kinds: IndexMap::with_hasher(alloc, seed),
            days: IndexMap::with_hasher(alloc, seed),
            entities: IndexMap::with_hasher(alloc, seed),
            alloc,
        }
    }

    /// Takes an event that comes to the inbox, before the inbox takes it: from then on the views
    /// stand for what came with the event, so `Inbox::put` of it has to follow. An event that is
    /// there, or that isn't shown, changes nothing and needs no memory. After a refusal nothing has
    /// changed. A search of the inbox, and the time of `put_at`.
    pub fn put(&mut self, inbox: &Inbox, event: &Sequenced) -> Result<(), AllocError>
        requires { AreTablesOfShown inbox.now.arrivals self.old }
        ensures stands { OnOk result
            (AreTablesOfShown (append_new key_cmp inbox.now.arrivals (event.now ∷ [])) self.new) }
        ensures same { OnErr result (self.new ≡ self.old) }
        ensures states { self.new.states ≡ self.old.states }

        // Memory is wanted for a new event alone, and that it is shown.
        ensures new { OnErr result (has key_cmp inbox.now.arrivals event.now ≡ false) }
        ensures shown { OnErr result
            (is_shown (set_of (inbox.now.arrivals ++ event.now ∷ [])) event.now ≡ true) }
    {
        match inbox.place_of(event) {
            Ok(_) => Ok(()),
            Err(gap) => self.put_at(inbox, event, gap),
        }
    }

    /// `put` of an event that isn't there, by the place where it goes in, as `Inbox::place_of`
    /// tells it: for whoever has searched already. Time logarithmic in the shown events of its
    /// source and subject, and a search of the inbox where another event has its source and id; a
    /// type, day, source or subject that is new is copied, and an id in any case.
    pub fn put_at(&mut self, inbox: &Inbox, event: &Sequenced, gap: u64) -> Result<(), AllocError>
        requires stands { AreTablesOfShown inbox.now.arrivals self.old }
        requires new { has key_cmp inbox.now.arrivals event.now ≡ false }
        requires gap { IsGapFor key_cmp (events inbox.now) event.now gap }
        ensures stands { OnOk result
            (AreTablesOfShown (append_new key_cmp inbox.now.arrivals (event.now ∷ [])) self.new) }
        ensures same { OnErr result (self.new ≡ self.old) }
        ensures states { self.new.states ≡ self.old.states }
        ensures shown { OnErr result
            (is_shown (set_of (inbox.now.arrivals ++ event.now ∷ [])) event.now ≡ true) }
    {
        if has_key_of(inbox, event, gap) {
            return self.put_beside(inbox, event);
        }
        let place = inbox.arrived();
        self.admit(event, place, place)
    }

    /// `put` in kept views of an event that isn't there, where another may have its source and id.
    fn put_beside(&mut self, inbox: &Inbox, event: &Sequenced) -> Result<(), AllocError>
        requires stands { AreTablesOfShown inbox.now.arrivals self.old }
        requires new { has key_cmp inbox.now.arrivals event.now ≡ false }
        ensures stands { OnOk result
            (AreTablesOfShown (append_new key_cmp inbox.now.arrivals (event.now ∷ [])) self.new) }
        ensures same { OnErr result (self.new ≡ self.old) }
        ensures states { self.new.states ≡ self.old.states }
        ensures shown { OnErr result
            (is_shown (set_of (inbox.now.arrivals ++ event.now ∷ [])) event.now ≡ true) }
    {
        // A law that the clauses rest on; the call does nothing.
        text_tells_events();
        let place = inbox.arrived();
        let came = event.event();
        match inbox.shown_of(came.source(), came.id()) {
            None => self.admit(event, place, place),
            Some(other) => {
                if !came.compare(other.event()).is_lt() {
                    return Ok(());
                }
                let slot = slot_apart(self.alloc, other, event)?;
                let day = day_of(self.alloc, other)?;
                self.admit(event, place, place)?;
                self.dismiss(other, slot, day);
                Ok(())
            }
        }
    }

    /// Counts an event into the kept views, which came at a place, where no more than `before` have
    /// been. On a refusal nothing has changed.
    pub(crate) fn admit(
        &mut self,
        event: &Sequenced,
        place: u64,
        before: u64,
    ) -> Result<(), AllocError>
        requires fits { count_in self.old.kinds (kind_of event.now) ≤ before }
        requires days_fit { (k : KindDay) → day_count_in self.old.days k ≤ before }
        ensures comes { OnOk result (ComesIn event.now place self.old self.new) }
        ensures same { OnErr result (self.new ≡ self.old) }
        ensures states { self.new.states ≡ self.old.states }
    {
        // So many events no memory holds; a count goes as far as they.
        if before == u64::MAX {
            return Err(AllocError);
        }
        let kind = String::from_str(self.alloc, event.event().kind())?;
        let day = day_of(self.alloc, event)?;
        self.kinds.reserve(1)?;
        self.days.reserve(1)?;
        let slot = slot_of(self.alloc, event)?;
        // The rows tell no room before, so what may be refused there is the last such step.
        bring(self.alloc, &mut self.entities, slot, place)?;
        raise(&mut self.kinds, kind);
        raise_day(&mut self.days, day);
        Ok(())
    }

    /// Counts an event out of the kept views, of its type and of its day, and empties a slot.
    fn dismiss(&mut self, event: &Sequenced, slot: Option<Slot>, day: Option<DayKey>)
        requires counted { 0 < count_in self.old.kinds (kind_of event.now) }
        requires own { option_map day_in day ≡ kind_and_day event.now }
        ensures goes { GoesOut event.now (option_map slot_in slot) self.old self.new }
        ensures states { self.new.states ≡ self.old.states }
    {
        lower(&mut self.kinds, event.event().kind());
        lower_day(&mut self.days, day);
        clear(&mut self.entities, slot);
    }
}
