//! Laws of parts, each as the contract of a function that does nothing.

ghost use Rattle.parts.specs.Law.{ConflictsPart, DeltasPart, LatestPart, NumbersOfPart, PartsAdd, PartsAreFew, PartsJoin, PartsMerge, PartsTake, ShownPart, SummariesJoin};

use attributes::laws::text_tells_events;
use coverage::laws::{numbers_tell_summaries, sets_have_one_summary};

/// The numbers of a part are those of its sources, and so are its gaps.
pub fn numbers_part()
    ensures { NumbersOfPart }
{}

/// The shown events of a region's part are those of the whole whose source falls to it.
pub fn shown_part()
    ensures { ShownPart }
{}

/// The conflicts of a region's part are those of the whole whose source falls to it.
pub fn conflicts_part()
    ensures { ConflictsPart }
{}

/// The whole is the set of what its parts have, and its shown events are that of theirs.
pub fn parts_merge()
    ensures { PartsMerge }
{
    text_tells_events();
}

/// Types, and types by day, are counted in the whole as often as in its parts.
pub fn parts_add()
    ensures { PartsAdd }
{}

/// The latest events of a part are those of the whole whose source falls to it.
pub fn latest_part()
    ensures { LatestPart }
{}

/// Conflicts, latest events and rows of the whole are those of its parts in order.
pub fn parts_join()
    ensures { PartsJoin }
{}

/// A summary with digests gives those of the parts, and a delta those of the parts.
pub fn deltas_part()
    ensures { DeltasPart }
{}

/// True answers of the parts, in order, are the true answer of the whole.
pub fn summaries_join()
    ensures { SummariesJoin }
{
    numbers_tell_summaries();
    sets_have_one_summary();
}

/// What comes, the set of it, and a union are those of the parts, part by part.
pub fn parts_take()
    ensures { PartsTake }
{
    text_tells_events();
}

/// Of n parts, where there is one, each source falls to one.
pub fn parts_are_few()
    ensures { PartsAreFew }
{}
