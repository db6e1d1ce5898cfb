//! Several lists of events, numbered one after the other.

ghost use Rattle.std.specs.Prelude.{◌≡◌, ◌↔◌, ℕ, List, IfOk, IsTrue, length};
ghost use Rattle.std.specs.List.{AllByRecursion};
ghost use Rattle.attributes.specs.Event.{EventValue};
ghost use Rattle.attributes.specs.Fault.{IsEvent};
ghost use Rattle.inbox_table.specs.Calls.{joined};
ghost use Rattle.numbers.specs.Counts.{HasText, IsCountOf, KnowsEach, KnowsOnly};
ghost use Rattle.numbers.specs.Numbered.{AreBare};
ghost use Rattle.numbers.specs.Numberer.{taken};
ghost use Rattle.number_table.specs.Each.{AnswersEach, AreNumberedEach};

use attributes::{Batch, Events, List};
use numbers::{Counted, Known, NumberFault, number_all};
use std::alloc::Global;

/// Whether the number of each event of the lists is known.
pub(crate) fn are_known(known: &Known, lists: &List<Events>) -> bool
    ensures { IsTrue result ↔ AllByRecursion (HasText known.now) (joined lists.now) }
{
    for i in 0..lists.len() {
        if !known.has_all(lists.at(i)) {
            return false;
        }
    }
    true
}

/// The events of each list with a numberer's numbers, in their order. What has a number among them
/// has to be known with it. Where it is refused, some of the events may be counted.
pub(crate) fn number_lists(
    alloc: Global,
    counted: &mut Counted,
    known: &mut Known,
    lists: &List<Events>,
) -> Result<List<Batch>, NumberFault>
    requires { AllByRecursion AreBare lists.now }
    ensures numbers { IfOk result (λ answers. (base : List ℕ → ℕ) (A : List EventValue)
        → IsCountOf base A counted.old → KnowsEach base A known.old (joined lists.now)
        → AnswersEach base A lists.now answers
        × IsCountOf base (taken A (joined lists.now)) counted.new) }
    ensures only { IfOk result (λ _. (base : List ℕ → ℕ) (A : List EventValue)
        → IsCountOf base A counted.old → KnowsEach base A known.old (joined lists.now)
        → KnowsOnly base A known.old → KnowsOnly base (taken A (joined lists.now)) known.new) }
    ensures each { IfOk result (AreNumberedEach lists.now) }
    ensures one_each { IfOk result (λ answers. length answers ≡ length lists.now) }
    ensures events { IfOk result (AllByRecursion (AllByRecursion IsEvent)) }
{
    let mut answers = List::empty(alloc);
    for i in 0..lists.len() {
        let batch = number_all(alloc, counted, known, lists.at(i))?;
        answers.push(batch)?;
    }
    Ok(answers)
}
