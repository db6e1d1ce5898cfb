//! Questions, and what answers them.

use crate::row::{Days, Gaps, Kinds};
use attributes::Batch;
use coverage::Summary;
use inbox::Conflicts;

/// A question about a set of events.
#[derive(Clone, Copy, PartialEq, Eq, Debug)]
pub enum Query {
    /// Which numbers the events of each source have.
    Cover,
    /// The shown events, in key order.
    Shown,
    /// The keys that two or more events have, in key order, each with its events by text.
    Conflicts,
    /// The latest shown event of each source and subject, by source, then subject: the greatest by
    /// number, then id. An event without a subject is none.
    Latest,
    /// How many shown events have each type, in byte order.
    Kinds,
    /// How many shown events have each type and UTC day, by type, then day. An event without a time
    /// isn't counted.
    Days,
    /// The sources that lack a number below their greatest, in byte order, with what they lack.
    Gaps,
}

/// The answer to a question.
#[derive(Drop)]
pub enum Answer {
    /// A summary of version 1, whatever version the site tells its peers.
    Cover(Summary),
    Shown(Batch),
    Conflicts(Conflicts),
    Latest(Batch),
    Kinds(Kinds),
    Days(Days),
    Gaps(Gaps),
}
