//! What each kind of step on the table tells.

use crate::machine::{Machine, Says, View};
use atomic_table::{Join, Play, Split};
use std::marker::PhantomData;

/// Draws a ticket: compares and exchanges word 1.
pub(crate) struct Draw;

impl<A, C, O: Machine<A, C>> Play<Option<O>, View<A, C>> for Draw {
    ghost use Rattle.turn_lock.specs.Step.{draws};

    ghost then = { draws O.state O.next O.fits };
}

/// Looks at word 0 for the turn of its ticket.
pub(crate) struct Come;

impl<A, C, O: Machine<A, C>> Play<Option<O>, View<A, C>> for Come {
    ghost use Rattle.turn_lock.specs.Step.{comes};

    ghost then = { comes O.state O.next O.fits };
}

/// Notes the call of its turn, at a look at word 0.
pub(crate) struct Pend<W> {
    said: PhantomData<W>,
}

impl<A, C, W: Says<C>, O: Machine<A, C>> Play<Option<O>, View<A, C>> for Pend<W> {
    ghost use Rattle.turn_lock.specs.Step.{pends};

    ghost then = { pends O.state O.next O.fits W.call };
}

/// Ends its turn: adds 1 to word 0.
pub(crate) struct End;

impl<A, C, O: Machine<A, C>> Play<Option<O>, View<A, C>> for End {
    ghost use Rattle.turn_lock.specs.Step.{ends};

    ghost then = { ends O.state O.next O.fits };
}

/// Counts a split and marks its number, at a look at word 0.
pub(crate) struct Mark;

impl<A, C, O: Machine<A, C>> Play<Option<O>, View<A, C>> for Mark {
    ghost use Rattle.turn_lock.specs.Step.{marks_split};

    ghost then = { marks_split O.state O.next O.fits };
}

/// Looks at word 0 for how many turns ended.
pub(crate) struct Count;

impl<A, C, O: Machine<A, C>> Play<Option<O>, View<A, C>> for Count {
    ghost use Rattle.turn_lock.specs.Step.{sees_turns};

    ghost then = { sees_turns O.state O.next O.fits };
}

/// Learns what the rule says of all that was seen, at a look at word 0.
pub(crate) struct Learn;

impl<A, C, O: Machine<A, C>> Play<Option<O>, View<A, C>> for Learn {
    ghost use Rattle.turn_lock.specs.Step.{learns};

    ghost then = { learns O.state O.next O.fits };
}

/// A pass with the marked number.
pub(crate) struct Birth;

impl<A, C> Split<View<A, C>> for Birth {
    ghost use Rattle.turn_lock.specs.View.{unmarked, born};

    ghost left = { unmarked };

    ghost right = { born };
}

/// A note of what was seen, without a number.
pub(crate) struct Noting;

impl<A, C> Split<View<A, C>> for Noting {
    ghost use Rattle.turn_lock.specs.View.{note};

    ghost left = { λ v. v };

    ghost right = { note };
}

/// What was seen by one or the other.
pub(crate) struct Meeting<O> {
    of: PhantomData<O>,
}

impl<A, C, O: Machine<A, C>> Join<View<A, C>> for Meeting<O> {
    ghost use Rattle.turn_lock.specs.View.{joined, spent};

    ghost both = { joined };

    ghost spent = { spent O.blank };
}
