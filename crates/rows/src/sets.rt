//! Calls on events, their attributes and data, times and sequence numbers, members at fault, sets of
//! numbers, summaries, inboxes, the digests of blocks, and questions about an inbox.

mod digests;
mod inboxes;
mod members;
mod numbers;
mod offers;
mod readers;
mod scalars;
mod summaries;

use crate::events;
use crate::said::Said;
use crate::shelf::Shelf;
use attributes::{Event, Sequenced};
use block_digests::Blocks;
use coverage::{Intervals, Summary};
use inbox::Inbox;
use std::alloc::Global;

/// What has a name.
#[derive(Drop)]
pub struct Values {
    built: Shelf<Event>,
    events: Shelf<Sequenced>,
    inboxes: Shelf<Inbox>,
    sets: Shelf<Intervals>,
    summaries: Shelf<Summary>,
    blocks: Shelf<Blocks>,
}

impl Values {
    /// Nothing yet.
    pub fn empty(alloc: Global) -> Values {
        Values {
            built: Shelf::empty(alloc),
            events: Shelf::empty(alloc),
            inboxes: Shelf::empty(alloc),
            sets: Shelf::empty(alloc),
            summaries: Shelf::empty(alloc),
            blocks: Shelf::empty(alloc),
        }
    }
}

/// A call of an event by itself.
fn of_event(
    alloc: Global,
    values: &mut Values,
    word: &str,
    words: &[&str],
    out: &mut String,
) -> bool {
    match (word, words) {
        ("attribute", _) => readers::attribute(&values.built, words, out),
        ("duplicate", _) => readers::duplicate(alloc, &mut values.built, words),
        ("compare", _) => readers::compare(&values.built, words, out),
        ("number", _) => readers::number(&values.built, words, out),
        ("list", _) => readers::list(alloc, &values.built, words, out),
        ("queue", _) => readers::queue(alloc, &values.built, words, out),
        ("comment", _) => readers::comment(alloc, words, out),
        ("event-faults", []) => readers::faults(out),
        (_, [name]) => readers::own(alloc, &values.built, word, name, out),
        _ => false,
    }
}

/// A call of blocks.
fn of_blocks(
    alloc: Global,
    values: &mut Values,
    word: &str,
    words: &[&str],
    out: &mut String,
) -> bool {
    match (word, words) {
        ("blocks", [name]) => values.blocks.put(alloc, name, Blocks::empty(alloc)),
        ("note", _) => digests::note(&mut values.blocks, &values.inboxes, &values.events, words),
        ("forget", _) => digests::forget(&mut values.blocks, &values.events, words),
        ("mend", _) => digests::mend(&mut values.blocks, &values.inboxes, words),
        ("kept", _) => digests::kept(alloc, &values.blocks, &values.inboxes, words, out),
        ("block", _) => digests::block(words, out),
        ("digest", _) => digests::digest(alloc, &values.events, words, out),
        ("digits", _) => digests::digits(alloc, &values.summaries, words, out),
        ("sum", _) => digests::sum(alloc, &values.inboxes, &mut values.summaries, words),
        _ => of_event(alloc, values, word, words, out),
    }
}

/// A call of a summary.
fn of_summary(
    alloc: Global,
    values: &mut Values,
    word: &str,
    words: &[&str],
    out: &mut String,
) -> bool {
    match (word, words) {
        ("summary", [name]) => values.summaries.put(alloc, name, Summary::empty(alloc)),
        ("saw", _) => summaries::saw(alloc, &mut values.summaries, words),
        ("sources", _) => summaries::add_sources(alloc, &mut values.summaries, words),
        ("places", _) => summaries::places(alloc, &values.summaries, words, out),
        ("join", _) => summaries::unite(alloc, &mut values.summaries, words),
        ("double", _) => summaries::copy(alloc, &mut values.summaries, words),
        ("again", _) => summaries::again(alloc, &values.summaries, words, out),
        ("alike", _) | ("covers", _) => summaries::compare(&values.summaries, word, words, out),
        ("faults", []) => summaries::faults(out),
        ("refusals", []) => members::refusals(out),
        ("text", _) | ("version", _) | ("names", _) | ("of", _) | ("has", _) => {
            summaries::tell(&values.summaries, word, words, out)
        }
        _ => of_blocks(alloc, values, word, words, out),
    }
}

/// A call of a set of numbers.
fn of_numbers(
    alloc: Global,
    values: &mut Values,
    word: &str,
    words: &[&str],
    said: &mut Said,
) -> bool {
    match word {
        "numbers" => numbers::begin(alloc, &mut values.sets, words),
        "insert" => numbers::insert(&mut values.sets, words, said),
        "union" | "minus" => numbers::two(alloc, &mut values.sets, word, words, &mut said.text),
        "missing" | "copy" => numbers::one(alloc, &mut values.sets, word, words, &mut said.text),
        "spans" | "greatest" | "count" | "contains" | "next" | "same" => {
            numbers::tell(&values.sets, word, words, &mut said.text)
        }
        _ => of_summary(alloc, values, word, words, &mut said.text),
    }
}

/// Makes the call of these words; answers whether all that it is to tell is told.
fn call(alloc: Global, values: &mut Values, word: &str, words: &[&str], said: &mut Said) -> bool {
    match (word, words) {
        ("event", _) => events::event(alloc, &mut values.events, words),
        ("inbox", [name]) => values.inboxes.put(alloc, name, Inbox::empty(alloc)),
        ("take", _) => inboxes::take(&mut values.inboxes, &values.events, words, said),
        ("merge", _) => inboxes::merge(&mut values.inboxes, words, said),
        ("room", _) => inboxes::room(&mut values.inboxes, words),
        ("put", _) => inboxes::put(&mut values.inboxes, &values.events, words, &mut said.text),
        ("place", _) => inboxes::place(&values.inboxes, &values.events, words, &mut said.text),
        ("scatter", _) => inboxes::scatter(alloc, &mut values.inboxes, words, &mut said.text),
        ("order", _) => inboxes::order(alloc, &values.inboxes, words, &mut said.text),
        ("ask", _) => inboxes::ask(alloc, &values.inboxes, words, &mut said.text),
        ("day", _) => inboxes::day(alloc, &values.inboxes, words, &mut said.text),
        ("conflict", _) => inboxes::conflict(alloc, words, &mut said.text),
        ("all", _) | ("best", _) | ("size", _) | ("came", _) | ("rivals", _) => {
            inboxes::tell(&values.inboxes, word, words, &mut said.text)
        }
        _ => of_numbers(alloc, values, word, words, said),
    }
}

/// Makes a call whose last word is a text, which may have spaces; none where it is another call.
fn of_text(
    alloc: Global,
    values: &mut Values,
    word: &str,
    text: &str,
    out: &mut String,
) -> Option<bool> {
    match word {
        "build" => Some(match text.split_once(' ') {
            Some((name, text)) => offers::call(alloc, &mut values.built, name, text, out),
            None => false,
        }),
        "read" => Some(match text.split_once(' ') {
            Some((name, text)) => summaries::read(alloc, &mut values.summaries, name, text, out),
            None => false,
        }),
        "moment" => Some(scalars::moment(alloc, text, out)),
        "sequence" => Some(scalars::sequence(text, out)),
        "twenty" => Some(scalars::twenty(alloc, text, out)),
        "keep" => Some(scalars::keep(alloc, text, out)),
        "members" => Some(members::members(alloc, text, out)),
        "hints" => Some(members::hints(alloc, text, out)),
        "bytes" => Some(scalars::bytes(alloc, text, out)),
        _ => None,
    }
}

/// Makes a call by its words.
fn by_words(alloc: Global, values: &mut Values, text: &str, said: &mut Said) -> bool {
    let words: Result<Vec<&str>, _> = text.split_whitespace().collect(alloc);
    match words {
        Ok(words) => match words.as_slice() {
            [word, words @ ..] => call(alloc, values, word, words, said),
            _ => false,
        },
        Err(_) => false,
    }
}

impl Values {
    /// Makes the call of a line, and adds what it answers; answers whether all of it is told.
    pub fn play(&mut self, alloc: Global, call: &str, said: &mut Said) -> bool {
        let (word, text) = match call.split_once(' ') {
            Some((word, text)) => (word, text),
            None => (call, ""),
        };
        match of_text(alloc, self, word, text, &mut said.text) {
            Some(is_told) => is_told,
            None => by_words(alloc, self, call, said),
        }
    }
}
