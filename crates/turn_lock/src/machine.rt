//! The object as a plain machine, and what a pass knows of its history.

ghost use Rattle.std.specs.Prelude.{None, Option};

use std::collections::LinkedList;
use std::marker::Brand;

/// What an object means: its state `A`, and what a call `C`, a command with its reply, does to it.
pub trait Machine<A, C> {
    ghost state: { Self → A };

    // The state after a call.
    ghost next: { A → C → A };

    // The call's reply is the one that its command has in this state.
    ghost fits: { A → C → Type 0 };

    // Any state, for a view that is spent.
    ghost blank: { A };
}

/// One call of the history, and the number of the pass that made it. No value of it is made.
pub struct Entry<C> {
    pub number: LinkedList<u64>,
    pub call: C,
}

/// What a pass knows. No value of it is made: it is for the proofs.
pub struct View<A, C> {
    /// None: a note of what another pass has seen.
    pub number: Option<LinkedList<u64>>,
    /// How many passes were split off.
    pub splits: u64,
    /// The state that the object opened with.
    pub opening: A,
    /// The first calls of the history, as far as the pass has heard of them.
    pub seen: LinkedList<Entry<C>>,
    /// Its own calls.
    pub mine: LinkedList<Entry<C>>,
    /// The shorter of two histories that were joined.
    pub told: LinkedList<Entry<C>>,
    /// The turn that it waits for.
    pub ticket: Option<u64>,
    /// It has the object out.
    pub has_turn: bool,
    /// The call that the end of its turn adds.
    pub pending: Option<C>,
    /// The number that was counted last isn't given away yet.
    pub marked: bool,
}

/// The call that the end of a turn adds, for the proof alone. A function that calls `leave` at
/// `Brand` picks it from its arguments.
pub trait Says<C> {
    ghost call: { Option C };
}

impl<C> Says<C> for Brand {
    ghost call = { None };
}
