//! The table with the object in it, and the calls that passes make on it.

ghost use Rattle.std.specs.Prelude.{◌≡◌, ◌≤◌, ◌∷◌, [], ℕ, List, length, Some, None, true, false, IfOk, IfErr};
ghost use Rattle.turn_lock.specs.History.{entry};
ghost use Rattle.turn_lock.specs.Step.{Comes};
ghost use Rattle.turn_lock.specs.Turn.{Adds, Closes, CountsOne, HasTurn, Hears, IsIdle, IsReady, IsSplitOff, MayEnd, Meets};
ghost use Rattle.turn_lock.specs.View.{ended_with, newcomer, note, noted, with_ticket};

use crate::machine::{Machine, Says, View};
use crate::play::{Birth, Come, Count, Draw, End, Learn, Mark, Meeting, Noting, Pend};
use atomic_table::{Refused, Seat, Table, TableRule};
use std::alloc::Global;
use std::marker::Model;
use std::snapshot::Snapshot;
use std::sync::Wait;
use std::thread;
use std::time::Duration;

/// How often a pass that waits yields before it sleeps.
const YIELDS: u32 = 1_000;

/// The rule of the table: one history, turns in the order of their tickets.
pub struct ByTurns;

impl<A, C, O: Machine<A, C>> TableRule<Option<O>, View<A, C>, Snapshot<O>> for ByTurns {
    ghost use Rattle.std.specs.Prelude.{[]};
    ghost use Rattle.turn_lock.specs.Rule.{Turns};
    ghost use Rattle.turn_lock.specs.View.{newcomer};

    ghost holds = { λ k. Turns O.state O.next O.fits (O.state k.value) };

    ghost first = { λ k. newcomer [] (O.state k.value) [] };
}

/// What a thread takes turns with. It has no bytes.
pub type Pass<O, A, C> = Seat<Option<O>, View<A, C>>;

/// An object that passes take turns with. Contracts see which table it is; a pass belongs to it
/// where its `table_id` is that one.
#[derive(Drop)]
pub struct Turnstile<O: Machine<A, C> + Drop, A, C> {
    table: Table<Option<O>, View<A, C>, Snapshot<O>, ByTurns, Global>,
}

impl<O: Machine<A, C> + Drop, A, C> Model for Turnstile<O, A, C> {
    ghost use Rattle.std.specs.Prelude.{◌≡◌};
    ghost use Rattle.atomic_table.specs.Seated.{TableId, table_id_coded};

    ghost Value = { TableId };

    ghost coded = { table_id_coded };

    ghost view = { λ t. t.table.shared.table_id };

    ghost invariant = { λ t. (t.table.shared.table_id.words ≡ 2)
        × (t.table.shared.table_id.slots ≡ 1) };
}

impl<O: Machine<A, C> + Drop, A, C> Turnstile<O, A, C> {
    /// A turnstile with the object in it that threads use in turns, and its first pass. Where there
    /// is no memory, the object comes back.
    pub fn open(alloc: Global, object: O) -> Result<(Turnstile<O, A, C>, Pass<O, A, C>), O>
        ensures opened { IfOk result (λ t. (t.1.table_id ≡ t.0)
            × (t.1.me.0 ≡ newcomer [] (O.state object) [])
            × IsIdle O.state O.next O.fits t.1.me) }
        ensures back { IfErr result (λ o. o ≡ object) }
    {
        let about = Snapshot::of(&object);
        let mut slots = Vec::new(alloc);
        if slots.reserve(1).is_err() {
            return Err(object);
        }
        slots.push_reserved(Some(object));
        match Table::new(alloc, &[0, 0], slots, &about) {
            Ok((table, pass)) => Ok((Turnstile { table }, pass)),
            Err(Refused { mut slots }) => {
                let Some(Some(object)) = slots.pop() else {
                    unreachable!()
                };
                Err(object)
            }
        }
    }

    /// Waits for a turn, takes the turnstile's object. The pass has then heard of all calls so far.
    pub fn enter<R: Wait>(&self, rt: &R, pass: &mut Pass<O, A, C>) -> O
        requires own { pass.old.table_id ≡ self.now }
        requires idle { IsIdle O.state O.next O.fits pass.old.me }
        ensures own { (pass.new.table_id ≡ pass.old.table_id) × (pass.new.id ≡ pass.old.id) }
        ensures turn { HasTurn O.state O.next O.fits pass.new.me (O.state result) }
        ensures hears { Hears pass.old.me.0 pass.new.me.0 }
    {
        let ticket = self.draw(rt, pass);
        self.wait(rt, pass, ticket);
        let Some(object) = self.table.shared.exchange(pass, 0, None) else {
            unreachable!()
        };
        object
    }

    /// Gives the object back to the turnstile and ends the turn with the call that `W` says: what
    /// was done to the object while it was out.
    pub fn leave<W: Says<C>>(&self, pass: &mut Pass<O, A, C>, object: O)
        requires own { pass.old.table_id ≡ self.now }
        requires said { (c : C) × (W.call ≡ Some c)
            × MayEnd O.state O.next O.fits pass.old.me object c }
        ensures own { (pass.new.table_id ≡ pass.old.table_id) × (pass.new.id ≡ pass.old.id) }
        ensures idle { IsIdle O.state O.next O.fits pass.new.me }
        ensures ended { (n : List ℕ) (c : C) → pass.old.me.0.number ≡ Some n → W.call ≡ Some c
            → Adds n c pass.old.me.0 pass.new.me.0 }
    {
        self.pend::<W>(pass);
        self.table.shared.exchange(pass, 0, Some(object));
        self.finish(pass);
    }

    /// Takes the turnstile's object out for good, in a turn that ends with no call.
    pub fn close<R: Wait>(self, rt: &R, mut pass: Pass<O, A, C>) -> O
        requires own { pass.table_id ≡ self }
        requires idle { IsIdle O.state O.next O.fits pass.me }
        ensures { Closes O.state O.next O.fits pass.me.0 result }
    {
        self.enter(rt, &mut pass)
    }

    /// How many turns with the turnstile's object ended.
    pub fn turns(&self, pass: &mut Pass<O, A, C>) -> u64
        requires own { pass.old.table_id ≡ self.now }
        ensures own { (pass.new.table_id ≡ pass.old.table_id) × (pass.new.id ≡ pass.old.id)
            × (pass.new.me ≡ pass.old.me) }
        ensures some { length pass.old.me.0.seen ≤ result }
    {
        self.table.shared.load::<Count>(pass, 0)
    }

    /// A new pass of the turnstile, which has seen as much and has made no call.
    pub fn split(&self, pass: &mut Pass<O, A, C>) -> Pass<O, A, C>
        requires own { pass.old.table_id ≡ self.now }
        requires idle { IsIdle O.state O.next O.fits pass.old.me }
        ensures own { (pass.new.table_id ≡ pass.old.table_id) × (pass.new.id ≡ pass.old.id) }
        ensures old { IsIdle O.state O.next O.fits pass.new.me }
        ensures counted { CountsOne pass.old.me.0 pass.new.me.0 }
        ensures table { result.table_id ≡ pass.old.table_id }
        ensures idle { IsIdle O.state O.next O.fits result.me }
        ensures new { IsSplitOff pass.old.me.0 result.me.0 }
    {
        self.table.shared.load::<Mark>(pass, 0);
        self.table.shared.split_seat::<Birth>(pass)
    }

    /// The pass `me` learns all that the other has seen of the turnstile's history.
    pub fn meet(&self, me: &mut Pass<O, A, C>, other: &mut Pass<O, A, C>)
        requires own { (me.old.table_id ≡ self.now) × (other.old.table_id ≡ self.now) }
        requires idle { IsIdle O.state O.next O.fits me.old.me }
        ensures own { (me.new.table_id ≡ me.old.table_id) × (me.new.id ≡ me.old.id) }
        ensures other { (other.new.table_id ≡ other.old.table_id) × (other.new.id ≡ other.old.id)
            × (other.new.me ≡ other.old.me) }
        ensures idle { IsIdle O.state O.next O.fits me.new.me }
        ensures met { Meets me.old.me.0 other.old.me.0 me.new.me.0 }
    {
        let note = self.note(other);
        self.table.shared.join_seat::<Meeting<O>>(me, note);
        self.table.shared.load::<Learn>(me, 0);
    }

    /// Draws a ticket for a turn, while fewer than 2^62 were drawn; from then on it tries for ever.
    fn draw<R: Wait>(&self, rt: &R, pass: &mut Pass<O, A, C>) -> u64
        requires own { pass.old.table_id ≡ self.now }
        requires idle { (pass.old.me.0.ticket ≡ None) × (pass.old.me.0.has_turn ≡ false)
            × ((n : List ℕ) × (pass.old.me.0.number ≡ Some n)) }
        ensures own { (pass.new.table_id ≡ pass.old.table_id) × (pass.new.id ≡ pass.old.id) }
        ensures drawn { pass.new.me ≡ (with_ticket result pass.old.me.0, pass.old.me.1) }
    {
        let mut tried = self.table.shared.peek(1);
        for _ in rt.forever() {
            if tried < 1 << 62 {
                let found = self
                    .table
                    .shared
                    .compare_exchange::<Draw>(pass, 1, tried, tried + 1);
                if found == tried {
                    return found;
                }
                tried = found;
            } else {
                tried = self.table.shared.peek(1);
            }
        }
        unreachable!()
    }

    /// Lets time pass between two looks for the turn of a ticket, after so many looks of which the
    /// last found that so many turns ended. At first it yields. A pass that waits longer sleeps
    /// from look to look, for 1 microsecond and then twice as long each time: up to 64 where its
    /// turn is the next, and up to 1,024 where five or more are before it. It sleeps not at all
    /// where a turn ended since the look. So waiting for long costs little time of the processor.
    fn pause<R: Wait>(&self, rt: &R, looks: u32, ended: u64, ticket: u64) {
        if looks < YIELDS {
            thread::yield_now();
            return;
        }
        let before = ticket.saturating_sub(ended).min(5) as u32;
        let doublings = (looks - YIELDS).min(5 + before);
        let found = (ended & 0xffff_ffff) as u32;
        self.table
            .shared
            .park_timeout(rt, 0, found, Duration::from_micros(1 << doublings));
    }

    /// Waits for the turn of the ticket, and takes the turnstile's slot.
    fn wait<R: Wait>(&self, rt: &R, pass: &mut Pass<O, A, C>, ticket: u64)
        requires own { pass.old.table_id ≡ self.now }
        requires waits { (pass.old.me.0.ticket ≡ Some ticket)
            × (pass.old.me.0.has_turn ≡ false)
            × ((n : List ℕ) × (pass.old.me.0.number ≡ Some n)) }
        ensures own { (pass.new.table_id ≡ pass.old.table_id) × (pass.new.id ≡ pass.old.id) }
        ensures come { Comes O.state O.next O.fits pass.old.me pass.new.me }
    {
        let mut looks = 0u32;
        for _ in rt.forever() {
            let ended = self.table.shared.load::<Come>(pass, 0);
            if ended == ticket {
                return;
            }
            self.pause(rt, looks, ended, ticket);
            looks = looks.saturating_add(1);
        }
        unreachable!()
    }

    /// Notes in the turnstile the call that is to end the turn.
    fn pend<W: Says<C>>(&self, pass: &mut Pass<O, A, C>)
        requires own { pass.old.table_id ≡ self.now }
        requires said { (c : C) × (W.call ≡ Some c) }
        ensures own { (pass.new.table_id ≡ pass.old.table_id) × (pass.new.id ≡ pass.old.id) }
        ensures noted { (c : C) → W.call ≡ Some c
            → pass.new.me ≡ (noted c pass.old.me.0, pass.old.me.1) }
    {
        self.table.shared.load::<Pend<W>>(pass, 0);
    }

    /// Ends the turn with the call that was noted, the object being back in the turnstile's slot.
    fn finish(&self, pass: &mut Pass<O, A, C>)
        requires own { pass.old.table_id ≡ self.now }
        requires ready { IsReady O.state O.next O.fits pass.old.me }
        ensures own { (pass.new.table_id ≡ pass.old.table_id) × (pass.new.id ≡ pass.old.id) }
        ensures ended { (n : List ℕ) (c : C) → pass.old.me.0.number ≡ Some n
            → pass.old.me.0.pending ≡ Some c
            → pass.new.me ≡ (ended_with (entry n c) pass.old.me.0, []) }
    {
        self.table.shared.fetch_add::<End>(pass, 0, 1);
    }

    /// A note of what the turnstile's pass has seen of the history.
    fn note(&self, pass: &mut Pass<O, A, C>) -> Pass<O, A, C>
        requires own { pass.old.table_id ≡ self.now }
        ensures own { (pass.new.table_id ≡ pass.old.table_id) × (pass.new.id ≡ pass.old.id)
            × (pass.new.me ≡ pass.old.me) }
        ensures note { (result.table_id ≡ pass.old.table_id)
            × (result.me ≡ (note pass.old.me.0, [])) }
    {
        self.table.shared.split_seat::<Noting>(pass)
    }
}
