//! What a site is asked.

ghost use Rattle.std.specs.Prelude.{◌≡◌, ◌≢◌, [], IfOk, OnErr};
ghost use Rattle.coverage.specs.Digests.{Digests};
ghost use Rattle.inbox.specs.Sets.{set_of};
ghost use Rattle.views.specs.Number.{Sums};
ghost use Rattle.views.specs.Question.{IsAnswer, IsTrueOf, MayWantMemory, query_of};

use super::Site;
use attributes::Text;
use coverage::Summary;
use inbox::laws::sets_are_members;
use std::alloc::AllocError;
use views::laws::answers_are_alike;
use views::{Answer, Query, answer, answer_lines, print};

impl Site {
    /// The summary that digests the set, version 2: which numbers the events of each source have,
    /// and the digest of each block of them. Sorts and hashes the blocks to which events came since
    /// their digest was made, and keeps their digests; else time and memory in proportion to the
    /// sources, their intervals and the blocks.
    pub fn summary(&mut self) -> Result<Summary, AllocError>
        ensures same { self.new ≡ self.old }
        ensures digests { IfOk result (Digests (set_of self.new)) }

        // A site without events wants no memory.
        ensures err { OnErr result (set_of self.old ≢ []) }
    {
        self.mend()?;
        self.digested()
    }

    /// Makes the digests of the site's blocks to which events came since theirs were made.
    pub(super) fn mend(&mut self) -> Result<(), AllocError>
        ensures same { self.new ≡ self.old }
        ensures err { OnErr result (set_of self.old ≢ []) }
    {
        if self.inbox.len() == 0 {
            return Ok(());
        }
        // Only events are kept.
        let _arrived = self.inbox.arrived();
        self.blocks.mend(&self.inbox)
    }

    /// The site's `summary`, which keeps no digest that it makes.
    pub(super) fn digested(&self) -> Result<Summary, AllocError>
        ensures digests { IfOk result (Digests (set_of self.now)) }
        ensures err { OnErr result (set_of self.now ≢ []) }
    {
        if self.len() == 0 {
            return Ok(Summary::empty_digested(self.alloc));
        }
        // What the set has and what came are the same events.
        let _arrived = self.inbox.arrived();
        sets_are_members();
        self.summary.digested(&self.blocks, &self.inbox)
    }

    /// Which numbers the site's events of each source have, version 1: a copy of what is kept as
    /// events come. Time and memory in proportion to the sources and their intervals.
    fn numbers(&self) -> Result<Summary, AllocError>
        ensures sums { IfOk result (Sums (set_of self.now)) }
        ensures err { OnErr result (set_of self.now ≢ []) }
    {
        if self.len() == 0 {
            return Ok(Summary::empty(self.alloc));
        }
        // What the set has and what came are the same events.
        let _arrived = self.inbox.arrived();
        sets_are_members();
        self.summary.copy()
    }

    /// The site's answer to a question from the views, where they are kept, else from scratch.
    fn viewed(&self, query: Query) -> Result<Answer, AllocError>
        ensures query { IfOk result (λ a. query_of a ≡ query) }
        ensures answer { IfOk result (IsTrueOf (set_of self.now)) }
        ensures err { OnErr result (set_of self.now ≢ []) }
        ensures rows { OnErr result (MayWantMemory query (set_of self.now)) }
    {
        match &self.views {
            Some(views) => views.answer(&self.inbox, query),
            None => answer(self.alloc, &self.inbox, query),
        }
    }

    /// The site's answer to a question about its set. `Cover` is answered by a summary of version
    /// 1, a copy of what is kept as events come; each other question costs what `Views::answer`
    /// does where views are kept, and else what `views::answer` does.
    pub fn query(&self, query: Query) -> Result<Answer, AllocError>
        ensures query { IfOk result (λ a. query_of a ≡ query) }
        ensures answer { IfOk result (IsTrueOf (set_of self.now)) }

        // A site without events wants no memory, nor does one without conflicts or days for these.
        ensures err { OnErr result (set_of self.now ≢ []) }
        ensures rows { OnErr result (MayWantMemory query (set_of self.now)) }
    {
        match query {
            Query::Cover => Ok(Answer::Cover(self.numbers()?)),
            _ => self.viewed(query),
        }
    }

    /// The lines of the answer to a question about a site's set: what `views::print` makes of
    /// `query`, but shown events and conflicts are printed where they stand, without a copy of
    /// each, and so are the latest events where no views are kept.
    pub fn lines(&self, query: Query) -> Result<Text, AllocError>
        ensures lines { IfOk result (IsAnswer query (set_of self.now)) }

        // Where there are no events, memory is wanted for a text alone that isn't empty.
        ensures err { OnErr result (IsAnswer query (set_of self.now) []
            → set_of self.now ≢ []) }
        ensures rows { OnErr result (IsAnswer query (set_of self.now) []
            → MayWantMemory query (set_of self.now)) }
    {
        // A law that the clauses rest on; the call does nothing.
        answers_are_alike();
        if self.len() == 0 {
            return answer_lines(self.alloc, &self.inbox, query);
        }
        match query {
            Query::Shown => answer_lines(self.alloc, &self.inbox, query),
            Query::Conflicts => answer_lines(self.alloc, &self.inbox, query),
            Query::Latest if self.views.is_none() => answer_lines(self.alloc, &self.inbox, query),
            _ => print(self.alloc, &self.query(query)?),
        }
    }
}
