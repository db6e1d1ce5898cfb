//! Answers that tell events, in the whole from its parts: the shown ones, those in conflict and the
//! latest.

ghost use Rattle.std.specs.Prelude.{◌≡◌, IfErr, IfNone, IfOk, IfSome, List, OnErr, OnOk, Some, ℕ, flat_map, map};
ghost use Rattle.attributes.specs.Event.{EventValue};
ghost use Rattle.inbox.specs.Kept.{events};
ghost use Rattle.inbox.specs.Sets.{AreEvents, set_of};
ghost use Rattle.views.specs.Number.{Sums};
ghost use Rattle.views.specs.Question.{IsAnswer};
ghost use Rattle.views.specs.declared.query.Query.{Query};
ghost use Rattle.views.specs.declared.query.Query.TheVariants as query;
ghost use Rattle.parts.specs.Combined.{AreAnswers};
ghost use Rattle.parts.specs.Told.{AreGathered, AreToldApart, IsHeld, IsNoAnswer, IsOfEvents, IsToldTogether, RefusesTold, TellsSet, events_told};

use crate::cover::check_apart;
use crate::fault::CombineFault;
use crate::lines::{append, read_rows};
use attributes::laws::text_tells_events;
use attributes::{List, Sequenced, Text};
use coverage::Summary;
use inbox::Inbox;
use std::alloc::{AllocError, Global};
use views::laws::answers_are_alike;
use views::{Answer, Query, answer, answer_lines};

/// The set of copies of events that a part's answer tells.
fn set_of_copies(alloc: Global, list: &[Sequenced]) -> Result<Inbox, AllocError>
    ensures set { IfOk result (λ inbox. events inbox ≡ set_of list.now) }
    ensures events { IfOk result (λ inbox. AreEvents inbox.arrivals) }
{
    let mut inbox = Inbox::empty(alloc);
    for event in list {
        let Ok(_) = inbox.take(event.copy()?) else {
            return Err(AllocError);
        };
    }
    // That what came are events, the count says.
    let _count = inbox.arrived();
    Ok(inbox)
}

/// The events of conflicts that a part's answer tells, one list behind the other.
fn flatten(alloc: Global, lists: List<List<Sequenced>>) -> Result<List<Sequenced>, AllocError>
    ensures { IfOk result (λ all. all ≡ flat_map (λ events. events) lists) }
{
    let mut all = List::empty(alloc);
    for events in lists.into_vec() {
        append(&mut all, events)?;
    }
    Ok(all)
}

/// The events that a part tells in its lines, where its text answers `conflicts` over some set.
fn read_conflicts(alloc: Global, text: &str) -> Result<Option<List<Sequenced>>, AllocError>
    ensures { IfOk result (λ o. (E : List EventValue) → IsHeld E
        → IsAnswer query.Conflicts E text.now → o ≡ Some (events_told query.Conflicts E)) }
{
    // A law that the clause rests on; the call does nothing.
    text_tells_events();
    let Some(rows) = read_rows::<List<Sequenced>>(alloc, text)? else {
        return Ok(None);
    };
    Ok(Some(flatten(alloc, rows)?))
}

/// The events that a part's text tells in its lines, if it answers the question over some set.
fn read_told(alloc: Global, query: Query, text: &str) -> Result<Option<List<Sequenced>>, AllocError>
    requires { IsOfEvents query }
    ensures { IfOk result (λ o. (E : List EventValue) → IsHeld E → IsAnswer query E text.now
        → o ≡ Some (events_told query E)) }
{
    // A law that the clause rests on; the call does nothing.
    text_tells_events();
    match query {
        Query::Conflicts => read_conflicts(alloc, text),
        _ => read_rows::<Sequenced>(alloc, text),
    }
}

/// The set of the events that a part's text tells, if it answers the question over some set.
fn read_part(alloc: Global, query: Query, text: &str) -> Result<Option<Inbox>, AllocError>
    requires { IsOfEvents query }
    ensures some { IfOk result (λ o. IfSome o (λ inbox. TellsSet query text.now (events inbox))) }
    ensures none { IfOk result (λ o. IfNone o (IsNoAnswer query text.now)) }
{
    // Laws that the clauses rest on; the calls do nothing.
    answers_are_alike();
    text_tells_events();
    let Some(list) = read_told(alloc, query, text)? else {
        return Ok(None);
    };
    let inbox = set_of_copies(alloc, list.as_slice())?;
    let again = answer_lines(alloc, &inbox, query)?;
    if again.as_str() != text {
        return Ok(None);
    }
    Ok(Some(inbox))
}

/// Which numbers the events of a set that a part tells have.
fn cover_of(alloc: Global, inbox: &Inbox) -> Result<Summary, AllocError>
    ensures { IfOk result (Sums (events inbox.now)) }
{
    match answer(alloc, inbox, Query::Cover)? {
        Answer::Cover(summary) => Ok(summary),
        _ => Ok(Summary::empty(alloc)),
    }
}

/// What the texts tell: the set of their events, and the cover of each.
#[derive(Drop)]
struct Gathered {
    all: Inbox,
    covers: Vec<Summary>,
}

/// What the texts of parts tell, each of which has to answer the question over some set.
fn gather(alloc: Global, query: Query, texts: &[&str]) -> Result<Gathered, CombineFault>
    requires { IsOfEvents query }
    ensures ok { IfOk result (λ g. AreGathered query (map (λ t. t.now) texts.now) (events g.all)
        g.covers.items) }
    ensures refused { IfErr result (RefusesTold query (map (λ t. t.now) texts.now)) }
{
    // A law that the clauses rest on; the call does nothing.
    text_tells_events();
    let mut all = Inbox::empty(alloc);
    let mut covers = Vec::new(alloc);
    for i in 0..texts.len() {
        let text = texts[i];
        let Some(inbox) = read_part(alloc, query, text)? else {
            return Err(CombineFault::NotAnAnswer { part: i as u64 });
        };
        covers.push(cover_of(alloc, &inbox)?)?;
        let Ok(_) = all.merge(&inbox) else {
            return Err(CombineFault::OutOfMemory);
        };
    }
    Ok(Gathered { all, covers })
}

/// The answer to `shown`, `conflicts` or `latest` over the whole, from the answers of its parts, in
/// any order of the parts. Refused are a text that answers the question over no set of numbered
/// events, and then a source that stands in two texts. Time in proportion to the texts and the
/// parts, times a logarithm; memory to the texts.
pub(crate) fn combine_events(
    alloc: Global,
    query: Query,
    answers: &[&str],
) -> Result<Text, CombineFault>
    requires { IsOfEvents query }
    ensures combined { (p : List ℕ → ℕ) (E : List EventValue) → IsHeld E
        → AreAnswers query p E (map (λ t. t.now) answers.now) → IfOk result (IsAnswer query E) }
    ensures apart { OnOk result (AreToldApart query (map (λ t. t.now) answers.now)) }
    ensures refused { IfErr result (RefusesTold query (map (λ t. t.now) answers.now)) }

    // Answers over the parts of a set want memory alone.
    ensures taken { (p : List ℕ → ℕ) (E : List EventValue) → IsHeld E
        → AreAnswers query p E (map (λ t. t.now) answers.now)
        → OnErr result (result ≡ Err CombineFault.OutOfMemory) }
{
    // A law that the clauses rest on; the call does nothing.
    text_tells_events();
    tell_together(alloc, query, answers)
}

/// `combine_events`, without what is told of the parts of a set.
fn tell_together(alloc: Global, query: Query, answers: &[&str]) -> Result<Text, CombineFault>
    requires { IsOfEvents query }
    ensures combined { IfOk result (IsToldTogether query (map (λ t. t.now) answers.now)) }
    ensures apart { OnOk result (AreToldApart query (map (λ t. t.now) answers.now)) }
    ensures refused { IfErr result (RefusesTold query (map (λ t. t.now) answers.now)) }
{
    let gathered = gather(alloc, query, answers)?;
    check_told(alloc, query, answers, &gathered)?;
    Ok(answer_lines(alloc, &gathered.all, query)?)
}

/// Whether no source stands in the texts of two parts.
fn check_told(
    alloc: Global,
    query: Query,
    answers: &[&str],
    gathered: &Gathered,
) -> Result<(), CombineFault>
    requires { AreGathered query (map (λ t. t.now) answers.now) (events gathered.now.all)
        gathered.now.covers.items }
    ensures apart { OnOk result (AreToldApart query (map (λ t. t.now) answers.now)) }
    ensures refused { IfErr result (RefusesTold query (map (λ t. t.now) answers.now)) }
{
    check_apart(alloc, &gathered.covers)
}
