//! Calls of a site, as a history has them. No value of these types is made: contracts speak of
//! them.

use attributes::Batch;
use coverage::Summary;
use views::{Answer, Query};

/// What a site is told to do.
pub enum Command {
    /// Takes the events of a batch, in its order.
    Take(Batch),
    /// Asks for the summary.
    Summary,
    /// Asks for the events at the places from the first number on of what a peer lacks by its
    /// summary, the second number of them at most.
    DeltaPage(Summary, u64, u64),
    /// Asks for the events at the places from the first number on in key order, the second number
    /// of them at most.
    Page(u64, u64),
    /// Asks for the events that came after the first so many, the second number of them at most.
    Fresh(u64, u64),
    /// Asks a question.
    Query(Query),
}

/// What a site replies.
pub enum Reply {
    /// How many events were new, and how many were there.
    Took(u64, u64),
    /// The summary.
    Summed(Summary),
    /// A page of events.
    Paged(Batch),
    /// The answer to a question.
    Answered(Answer),
    /// Want of memory: how many events of a batch were handled, and how many of those were new.
    Refused(u64, u64),
}

/// A command with its reply.
pub struct Call {
    pub command: Command,
    pub reply: Reply,
}
