//! Laws of sets of events, each as the contract of a function that does nothing.

ghost use Rattle.inbox.specs.Laws.{ArrivalsUnite, SetLaws, UnionLaws};

use attributes::laws::text_tells_events;

/// A set of events is its members: each once, in key order, and two sets that have the same ones
/// are one list.
pub fn sets_are_members()
    ensures { SetLaws }
{
    text_tells_events();
}

/// The union of sets of events has what either has; it is associative, commutative, idempotent.
pub fn unions_are_sets()
    ensures { UnionLaws }
{
    text_tells_events();
}

/// The set of the events that came is the union of the sets of its parts, whatever came again.
pub fn arrivals_unite()
    ensures { ArrivalsUnite }
{
    text_tells_events();
}
