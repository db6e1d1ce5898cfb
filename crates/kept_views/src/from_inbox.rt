//! Views of an inbox that has events already.

ghost use Rattle.std.specs.Prelude.{◌≡◌, ◌≢◌, ◌+◌, ◌<◌, [], IfOk, OnErr, OnOk, Some, length, replicate};
ghost use Rattle.inbox.specs.Kept.{events};
ghost use Rattle.kept_views.specs.Tables.{AreTablesOfShown};
ghost use Rattle.kept_views.specs.steps.Among.{AreTablesOf, shown_before};

use crate::kept::Views;
use inbox::Inbox;
use std::alloc::{AllocError, Global};
use std::hash::RandomState;

impl Views {
    /// The views of all that came to an inbox: those that `put` leaves where it takes each event as
    /// it comes. Keys are hashed by the random state, which nobody else knows. One pass over the
    /// shown events in key order, without a search for what hides what: time in proportion to the
    /// events, times the logarithm of their number. Memory is wanted for what the tables keep, and
    /// for hidden events none.
    pub fn of(alloc: Global, state: RandomState, inbox: &Inbox) -> Result<Views, AllocError>
        ensures stands { IfOk result (AreTablesOfShown inbox.now.arrivals) }
        ensures states { IfOk result (λ views. views.states ≡ replicate 3 (Some state)) }

        // Without events no memory is wanted.
        ensures err { OnErr result (events inbox.now ≢ []) }
    {
        let mut views = Views::with_hasher(alloc, state);
        for i in 0..inbox.len() {
            views.admit_at(inbox, i)?;
        }
        Ok(views)
    }

    /// Counts the event at place i of key order into kept views, if shown; those before have been.
    fn admit_at(&mut self, inbox: &Inbox, i: u64) -> Result<(), AllocError>
        requires in_range { i < length (events inbox.now) }
        requires before { AreTablesOf inbox.now.arrivals (shown_before i (events inbox.now)) self.old }
        ensures counted { OnOk result
            (AreTablesOf inbox.now.arrivals (shown_before (i + 1) (events inbox.now)) self.new) }
        ensures states { self.new.states ≡ self.old.states }
    {
        if !inbox.is_shown(i) {
            return Ok(());
        }
        let place = inbox.came_at(i);
        self.admit(inbox.at(i), place, i)
    }
}
