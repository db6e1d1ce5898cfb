//! What the words of the command line ask for.
use attributes::{Moment, Text, Texts};
use views::Query;

/// What the words ask for, and how long a database is waited for.
#[derive(Drop)]
pub struct Invocation {
    pub plan: Plan,
    /// For how many seconds at most a database is tried again that another process has open:
    /// 0 to 86,400, 0 for once.
    pub wait: u64,
}

/// What the words ask for: a command, and the values of its arguments.
#[derive(Drop)]
pub enum Plan {
    /// Any other command.
    Alone(Alone),
    /// Files taken side by side.
    Run(Run),
}

/// A command other than `run`. It waits for no thread; to read files alone it may start some.
#[derive(Drop)]
pub enum Alone {
    /// A command with one answer, which is known before anything is written.
    Once(Once),
    /// Lines that are answered as they come.
    Follow(Follow),
    /// Files whose events are judged, each by itself, and a database.
    Check(Check),
    /// Lines whose events are given numbers as they come.
    Number(Number),
    /// The answers of a region's parts as that of the whole.
    Combine(Combine),
    /// The events of files in parts, a file each.
    Split(Split),
}

/// A command with one answer.
#[derive(Drop)]
pub enum Once {
    /// The answer to a query for the events of all files together, and those of a database where
    /// one is given; there is one, or a file.
    Ask {
        query: Query,
        db: Option<Text>,
        files: Texts,
        /// Whether each line of the files is an event or a batch.
        has_lines: bool,
    },
    /// Which events a database has.
    Summary {
        db: Text,
    },
    /// The files' events into a database.
    Take {
        db: Text,
        files: Texts,
        /// Whether each line of the files is an event or a batch.
        has_lines: bool,
    },
    /// The events of a database that a summary lacks.
    Delta {
        db: Text,
        pages: Pages,
        summary: Text,
    },
    /// The events of a database in key order.
    Scrub {
        db: Text,
        pages: Pages,
    },
    /// The events of a database that came behind the first `after`: the next page of them, or all.
    Arrivals {
        db: Text,
        after: u64,
        is_all: bool,
    },
    /// The service of a database, made where there is none.
    Service {
        db: Text,
        /// The source of its events: 1 to 1,024 bytes without a control character.
        source: Text,
        /// Whether the words named that source, so that a service with another one isn't meant.
        is_source_named: bool,
        /// The number before its first row, at most 2^63-1, where the words gave one.
        base: Option<u64>,
    },
    /// A command to the service of a database.
    Order(Request),
    /// The rows of a service's outbox with a number greater than `after`: the next page of them, or
    /// all.
    Relay {
        db: Text,
        after: u64,
        is_all: bool,
    },
    /// The part of each source of the files' events, of so many, or the events of one part.
    Part {
        /// 1 to 65,536.
        count: u64,
        /// Below the count, where the words gave one.
        part: Option<u64>,
        files: Texts,
        /// Whether each line of the files is an event or a batch.
        has_lines: bool,
    },
}

/// The lines of a file into a database, each acknowledged when it is kept.
#[derive(Drop)]
pub struct Follow {
    pub db: Text,
    pub file: Text,
}

/// Files whose events are judged, each by itself, and kept nowhere, and a database of which it is
/// told what it is, where one is given; there is one, or a file.
#[derive(Drop)]
pub struct Check {
    pub db: Option<Text>,
    pub files: Texts,
    /// Whether each line of the files is an event or a batch.
    pub has_lines: bool,
    /// Whether the events are judged as `number` takes them, and not as sites do.
    pub is_for_number: bool,
}

/// The lines of a file, each event of which is given its number and printed once the number is kept.
#[derive(Drop)]
pub struct Number {
    /// The database of the numbers.
    pub db: Text,
    /// The name of the attribute that a number which an event has already is set aside under, where
    /// the words gave one. Any text.
    pub aside: Option<Text>,
    /// The number before the first of each source, at most 2^63-1.
    pub base: u64,
    pub file: Text,
}

/// The answers of a region's parts to a question, a file each, and beside them the parts' answers to
/// `cover`, in the same order.
#[derive(Drop)]
pub struct Combine {
    pub query: Query,
    pub covers: Texts,
    pub files: Texts,
}

/// The events of files in parts by their sources, each part's written into a file of its own: its
/// name is the prefix, the number of the part, from 0, and `.json`.
#[derive(Drop)]
pub struct Split {
    /// 1 to 65,536.
    pub count: u64,
    /// Any text.
    pub prefix: Text,
    pub files: Texts,
    /// Whether each line of the files is an event or a batch.
    pub has_lines: bool,
}

/// Files taken side by side into a database, each by a thread of its own, and with them the events
/// of another site's file, where one is given; 16 files at most, that one counted.
#[derive(Drop)]
pub struct Run {
    pub db: Text,
    pub peer: Option<Text>,
    pub files: Texts,
    /// Whether each line of the files is an event or a batch, also of the peer's.
    pub has_lines: bool,
}

/// Which pages of a list of events are printed.
#[derive(Clone, Copy, Debug, PartialEq, Eq)]
pub enum Pages {
    /// The one behind so many events.
    Behind(u64),
    /// Every one.
    All,
}

/// A command to a service: what is done with which order, and when.
#[derive(Drop)]
pub struct Request {
    pub db: Text,
    /// The source of the service's events: 1 to 1,024 bytes without a control character.
    pub source: Text,
    /// Whether the words named that source, so that a service with another one isn't meant.
    pub is_source_named: bool,
    /// A text of at most 64 bytes.
    pub at: Moment,
    pub action: Action,
    /// In 1..=2^63-1.
    pub order: u64,
}

/// What is done with an order.
#[derive(Clone, Copy, Debug, PartialEq, Eq)]
pub enum Action {
    Place,
    Ship,
    Cancel,
}
