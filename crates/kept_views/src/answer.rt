//! Answers from the tables.

ghost use Rattle.std.specs.Prelude.{◌≡◌, ◌≢◌, [], IfOk, List, OnErr, map};
ghost use Rattle.attributes.specs.Bytes.{byte_cmp};
ghost use Rattle.attributes.specs.Event.{EventValue, kind_of};
ghost use Rattle.inbox.specs.Kept.{events};
ghost use Rattle.inbox.specs.Shown.{shown};
ghost use Rattle.views.specs.Latest.{latest};
ghost use Rattle.views.specs.Question.{IsTrueOf, MayWantMemory, query_of};
ghost use Rattle.views.specs.Tally.{tally};
ghost use Rattle.kept_views.specs.Tables.{CountsKinds, EachHasRow, RowsAreOf, AreTablesOfShown};
ghost use Rattle.kept_views.specs.steps.Seen.{kinds_in, entities_in};

use crate::days::list_days;
use crate::entities::Entities;
use crate::kept::Views;
use crate::latest::{copied, ordered_latest};
use crate::tally::Tally;
use attributes::{Batch, Text};
use inbox::Inbox;
use std::alloc::{AllocError, Global};
use std::collections::BTreeMap;
use views::laws::{latest_are_greatest, latest_are_one};
use views::{Answer, Kinds, Query, answer};

/// The kept counts of types in byte order of their texts, lent. Time in proportion to them, times
/// the logarithm of their number.
fn ordered_kinds(alloc: Global, kinds: &Tally) -> Result<BTreeMap<&str, u64>, AllocError>
    ensures { IfOk result (λ table. (shown : List EventValue)
        → CountsKinds shown (kinds_in kinds.now.entries)
        → map (λ e. (e.0.now, e.1)) table.entries ≡ tally byte_cmp (map kind_of shown)) }
{
    let mut table = BTreeMap::new(alloc);
    for (kind, count) in kinds.iter() {
        table.insert(kind.as_str(), *count)?;
    }
    Ok(table)
}

/// The rows of the kept table of types, copied for an answer.
fn listed_kinds(alloc: Global, table: &BTreeMap<&str, u64>) -> Result<Kinds, AllocError>
    ensures { IfOk result (λ rows. rows ≡ map (λ e. (e.0.now, e.1)) table.now.entries) }
{
    let mut rows = Kinds::empty(alloc);
    for (kind, count) in table {
        rows.push((Text::of(alloc, kind)?, *count))?;
    }
    Ok(rows)
}

/// The answer to `kinds` from the kept counts, in byte order of their texts.
fn list_kinds(alloc: Global, kinds: &Tally) -> Result<Kinds, AllocError>
    ensures { IfOk result (λ rows. (shown : List EventValue)
        → CountsKinds shown (kinds_in kinds.now.entries)
        → rows ≡ tally byte_cmp (map kind_of shown)) }
{
    let table = ordered_kinds(alloc, kinds)?;
    Ok(listed_kinds(alloc, &table)?)
}

/// The answer to `latest` from kept views: copies of the latest events, by source, then subject.
/// Time in proportion to them, times the logarithm of their number, and to what is copied.
fn list_latest(alloc: Global, inbox: &Inbox, entities: &Entities) -> Result<Batch, AllocError>
    ensures { IfOk result (λ batch.
        RowsAreOf inbox.now.arrivals (shown (events inbox.now)) (entities_in entities.now.entries)
        → EachHasRow (shown (events inbox.now)) (entities_in entities.now.entries)
        → batch ≡ latest (events inbox.now)) }
{
    // Laws that the clause rests on, and that what came are events; the calls do nothing.
    latest_are_greatest();
    latest_are_one();
    let _arrived = inbox.arrived();
    let table = ordered_latest(alloc, inbox, entities)?;
    Ok(copied(alloc, &table)?)
}

impl Views {
    /// The answer to a question about the events that came, as `views::answer` gives it. `Kinds`,
    /// `Days` and `Latest` cost time in proportion to the rows of the answer, times the logarithm
    /// of their number, and to what is copied into it, and memory in proportion to the answer;
    /// other questions cost what `views::answer` costs. `AllocError` where memory is refused.
    pub fn answer(&self, inbox: &Inbox, query: Query) -> Result<Answer, AllocError>
        requires { AreTablesOfShown inbox.now.arrivals self.now }
        ensures query { IfOk result (λ a. query_of a ≡ query) }
        ensures answer { IfOk result (IsTrueOf (events inbox.now)) }

        // Without events no memory is wanted, nor for conflicts or days where there are none.
        ensures err { OnErr result (events inbox.now ≢ []) }
        ensures rows { OnErr result (MayWantMemory query (events inbox.now)) }
    {
        if inbox.len() == 0 {
            return answer(self.alloc, inbox, query);
        }
        match query {
            Query::Kinds => Ok(Answer::Kinds(list_kinds(self.alloc, &self.kinds)?)),
            Query::Days => Ok(Answer::Days(list_days(self.alloc, &self.days)?)),
            Query::Latest => Ok(Answer::Latest(list_latest(self.alloc, inbox, &self.entities)?)),
            _ => answer(self.alloc, inbox, query),
        }
    }
}
