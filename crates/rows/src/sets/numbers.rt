//! Calls of sets of numbers.

use crate::said::{Said, line, truth};
use crate::shelf::Shelf;
use crate::words::number_of;
use attributes::Sequence;
use coverage::{Interval, Intervals};
use std::alloc::{AllocError, Global};

/// A sequence number of words.
pub fn sequence_of(word: &str) -> Option<Sequence> {
    Sequence::of_u64(number_of(word)?)
}

/// The first and the last number of a word `FIRST-LAST` or `NUMBER`.
fn span_of(word: &str) -> Option<Interval> {
    match word.split_once('-') {
        Some((first, last)) => Some((number_of(first)?, number_of(last)?)),
        None => {
            let number = number_of(word)?;
            Some((number, number))
        }
    }
}

/// Adds the numbers of a span, and answers whether it did.
fn add_span(set: &mut Intervals, span: Interval) -> bool {
    for number in span.0..=span.1 {
        let is_added = match Sequence::of_u64(number) {
            Some(number) => set.insert(number).is_ok(),
            None => false,
        };
        if !is_added {
            return false;
        }
    }
    true
}

/// Adds the numbers of spans, and answers whether it did.
fn add_spans(set: &mut Intervals, words: &[&str]) -> bool {
    for word in words {
        let is_added = match span_of(word) {
            Some(span) => add_span(set, span),
            None => false,
        };
        if !is_added {
            return false;
        }
    }
    true
}

/// `numbers NAME SPAN..`: the set of the numbers of spans has that name from now on.
pub fn begin(alloc: Global, sets: &mut Shelf<Intervals>, words: &[&str]) -> bool {
    let [name, spans @ ..] = words else {
        return false;
    };
    let mut set = Intervals::empty(alloc);
    add_spans(&mut set, spans) && sets.put(alloc, name, set)
}

/// Adds a span.
fn add_text(out: &mut String, span: Interval) -> bool {
    let (first, last) = span;
    write!(out, "[{first},{last}]").is_ok()
}

/// Adds the intervals of a set.
pub fn spans(out: &mut String, set: &Intervals) -> bool {
    let mut from = 0u64;
    let mut is_first = true;
    for _span in 0..1_000u64 {
        match set.next_span(from) {
            Some(span) => {
                if !(is_first || out.push(' ').is_ok()) || !add_text(out, span) {
                    return false;
                }
                from = span.1.saturating_add(1);
                is_first = false;
            }
            None => return true,
        }
    }
    false
}

/// Adds the intervals of a set as a line.
pub fn spans_line(out: &mut String, set: &Intervals) -> bool {
    spans(out, set) && out.push('\n').is_ok()
}

/// Inserts numbers, the first so many of which are there from a call before, and counts the new ones.
fn insert_all(set: &mut Intervals, numbers: &[&str], said: &mut Said) -> Option<u64> {
    let mut fresh = 0u64;
    for word in numbers {
        let number = sequence_of(word)?;
        let is_new = match set.insert(number) {
            Ok(is_new) => is_new,
            Err(_) => {
                if !spans(&mut said.left, set) {
                    return None;
                }
                set.insert(number).ok()?
            }
        };
        if is_new {
            fresh = fresh.saturating_add(1);
        }
    }
    Some(fresh)
}

/// `insert NAME NUMBER..`: how many of the numbers are new.
pub fn insert(sets: &mut Shelf<Intervals>, words: &[&str], said: &mut Said) -> bool {
    let [name, numbers @ ..] = words else {
        return false;
    };
    let Some(set) = sets.get_mut(name) else {
        return false;
    };
    match insert_all(set, numbers, said) {
        Some(fresh) => {
            let count = numbers.len();
            write!(said.text, "{fresh} of {count} new\n").is_ok()
        }
        None => false,
    }
}

/// Adds the intervals of a new set, which has a name from now on.
fn made(
    alloc: Global,
    sets: &mut Shelf<Intervals>,
    name: &str,
    set: Result<Intervals, AllocError>,
    out: &mut String,
) -> bool {
    match set {
        Ok(set) => spans_line(out, &set) && sets.put(alloc, name, set),
        Err(_) => false,
    }
}

/// What comes of two sets.
fn of_two(word: &str, one: &Intervals, other: &Intervals) -> Result<Intervals, AllocError> {
    match word {
        "union" => one.union(other),
        _ => one.minus(other),
    }
}

/// `union|minus ONE OTHER NAME`: a new set, and its intervals.
pub fn two(
    alloc: Global,
    sets: &mut Shelf<Intervals>,
    word: &str,
    words: &[&str],
    out: &mut String,
) -> bool {
    let [one, other, name] = words else {
        return false;
    };
    let set = match (sets.get(one), sets.get(other)) {
        (Some(one), Some(other)) => of_two(word, one, other),
        _ => return false,
    };
    made(alloc, sets, name, set, out)
}

/// `missing|copy ONE NAME`: a new set, and its intervals.
pub fn one(
    alloc: Global,
    sets: &mut Shelf<Intervals>,
    word: &str,
    words: &[&str],
    out: &mut String,
) -> bool {
    let [one, name] = words else {
        return false;
    };
    let set = match (sets.get(one), word) {
        (Some(one), "missing") => one.missing(),
        (Some(one), _) => one.copy(),
        _ => return false,
    };
    made(alloc, sets, name, set, out)
}

/// Adds a number, or that there is none.
fn add_some(out: &mut String, number: Option<u64>) -> bool {
    match number {
        Some(number) => write!(out, "{number}\n").is_ok(),
        None => line(out, "none"),
    }
}

/// Adds the first interval that ends at a number or behind it.
fn add_next(out: &mut String, set: &Intervals, from: u64) -> bool {
    match set.next_span(from) {
        Some(span) => add_text(out, span) && out.push('\n').is_ok(),
        None => line(out, "none"),
    }
}

/// What a set tells of a number.
fn of_number(set: &Intervals, word: &str, number: &str, out: &mut String) -> bool {
    match word {
        "contains" => match sequence_of(number) {
            Some(number) => truth(out, set.contains(number)),
            None => false,
        },
        _ => match number_of(number) {
            Some(number) => add_next(out, set, number),
            None => false,
        },
    }
}

/// `spans|greatest|count NAME`, `contains|next NAME NUMBER`, `same ONE OTHER`: what sets tell.
pub fn tell(sets: &Shelf<Intervals>, word: &str, words: &[&str], out: &mut String) -> bool {
    match (word, words) {
        ("same", [one, other]) => match (sets.get(one), sets.get(other)) {
            (Some(one), Some(other)) => truth(out, one.same(other)),
            _ => false,
        },
        (_, [name, number]) => match sets.get(name) {
            Some(set) => of_number(set, word, number, out),
            None => false,
        },
        (_, [name]) => match (sets.get(name), word) {
            (Some(set), "spans") => spans_line(out, set),
            (Some(set), "greatest") => add_some(out, set.greatest()),
            (Some(set), "count") => add_some(out, Some(set.size())),
            _ => false,
        },
        _ => false,
    }
}
