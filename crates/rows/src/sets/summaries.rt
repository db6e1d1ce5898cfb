//! Calls of summaries.

use crate::said::{as_line, line, number, truth};
use crate::sets::numbers::{sequence_of, spans_line};
use crate::shelf::Shelf;
use crate::words::number_of;
use attributes::{Sequence, Text};
use coverage::{Intervals, Summary, SummaryFault};
use std::alloc::{AllocError, Global};

/// Adds a number of a source to a summary, and answers whether it did.
fn add(summary: &mut Summary, source: &Text, number: &str) -> bool {
    match sequence_of(number) {
        Some(number) => source.is_source() && summary.insert(source, number).is_ok(),
        None => false,
    }
}

/// Adds numbers of a source to a summary, and answers whether it did.
fn add_all(summary: &mut Summary, source: &Text, numbers: &[&str]) -> bool {
    for number in numbers {
        if !add(summary, source, number) {
            return false;
        }
    }
    true
}

/// `saw NAME SOURCE NUMBER..`: the summary of that name has these numbers of a source too.
pub fn saw(alloc: Global, summaries: &mut Shelf<Summary>, words: &[&str]) -> bool {
    let [name, source, numbers @ ..] = words else {
        return false;
    };
    match (summaries.get_mut(name), Text::of(alloc, source)) {
        (Some(summary), Ok(source)) => add_all(summary, &source, numbers),
        _ => false,
    }
}

/// The name of the source at a place of the byte order.
fn name_at(alloc: Global, place: u64) -> Result<Text, AllocError> {
    Ok(Text::from_string(format!(in alloc; "/source/{place:04}")?))
}

/// Adds the number of a place to the source at it, and answers whether it did.
fn add_at(alloc: Global, summary: &mut Summary, place: u64) -> bool {
    match (
        name_at(alloc, place),
        Sequence::of_u64(place.saturating_add(1)),
    ) {
        (Ok(source), Some(number)) => source.is_source() && summary.insert(&source, number).is_ok(),
        _ => false,
    }
}

/// `sources NAME STEP`: 500 sources more, the one at each place with the number of it, in the order
/// of a step, which is coprime to 500.
pub fn add_sources(alloc: Global, summaries: &mut Shelf<Summary>, words: &[&str]) -> bool {
    let [name, step] = words else {
        return false;
    };
    let (Some(summary), Some(step)) = (summaries.get_mut(name), number_of(step)) else {
        return false;
    };
    for k in 1..=500u64 {
        if !add_at(alloc, summary, k.wrapping_mul(step) % 500) {
            return false;
        }
    }
    true
}

/// Whether a source with its numbers is the one at a place, with just the number of it.
fn is_at(alloc: Global, place: u64, source: &str, numbers: &Intervals) -> Option<bool> {
    let number = place.saturating_add(1);
    let name = name_at(alloc, place).ok()?;
    Some(source == name.as_str() && numbers.next_span(1) == Some((number, number)))
}

/// How many of the sources stand at their places, with just the numbers of them.
fn in_place(alloc: Global, summary: &Summary) -> Option<u64> {
    let entries = summary.entries().ok()?;
    let mut count = 0u64;
    for (place, entry) in entries.iter().enumerate() {
        if is_at(alloc, place as u64, entry.0, entry.1)? {
            count = count.saturating_add(1);
        }
    }
    Some(count)
}

/// `places NAME`: how many sources there are, how many stand at their places with just the numbers
/// of them, and the last one.
pub fn places(alloc: Global, summaries: &Shelf<Summary>, words: &[&str], out: &mut String) -> bool {
    let [name] = words else {
        return false;
    };
    let Some(summary) = summaries.get(name) else {
        return false;
    };
    let len = summary.len();
    let Some(count) = in_place(alloc, summary) else {
        return false;
    };
    if len == 0 {
        return line(out, "none");
    }
    let last = summary.source_at(len - 1);
    write!(out, "{len}, {count} in place, the last {last}\n").is_ok()
}

/// `join ONE OTHER NAME`: a new summary that has all of both.
pub fn unite(alloc: Global, summaries: &mut Shelf<Summary>, words: &[&str]) -> bool {
    let [one, other, name] = words else {
        return false;
    };
    let made = match (summaries.get(one), summaries.get(other)) {
        (Some(one), Some(other)) => one.union(other),
        _ => return false,
    };
    match made {
        Ok(made) => summaries.put(alloc, name, made),
        Err(_) => false,
    }
}

/// `double ONE NAME`: a copy of a summary.
pub fn copy(alloc: Global, summaries: &mut Shelf<Summary>, words: &[&str]) -> bool {
    let [one, name] = words else {
        return false;
    };
    let made = match summaries.get(one) {
        Some(one) => one.copy(),
        None => return false,
    };
    match made {
        Ok(made) => summaries.put(alloc, name, made),
        Err(_) => false,
    }
}

/// Adds the number and the name of a fault.
fn add_fault(out: &mut String, fault: SummaryFault) -> bool {
    let number = fault.number();
    write!(out, "{number} {fault}\n").is_ok()
}

/// `faults`: the number and the name of each fault of a text.
pub fn faults(out: &mut String) -> bool {
    add_fault(out, SummaryFault::OutOfMemory)
        && add_fault(out, SummaryFault::NotJson)
        && add_fault(out, SummaryFault::Shape)
        && add_fault(out, SummaryFault::Version)
        && add_fault(out, SummaryFault::NotCanonical)
}

/// Adds the version of a summary, and its text, where its copy is the same.
fn add_read(out: &mut String, summary: &Summary) -> bool {
    let Ok(copy) = summary.copy() else {
        return false;
    };
    if !copy.same(summary) || copy.version() != summary.version() {
        return line(out, "its copy is another");
    }
    number(out, summary.version()) && out.push(' ').is_ok() && as_line(out, summary.to_text())
}

/// `read NAME TEXT`: the summary of a text, with its version and the text of it, or for which fault
/// there is none. The text `nothing` is empty.
pub fn read(
    alloc: Global,
    summaries: &mut Shelf<Summary>,
    name: &str,
    text: &str,
    out: &mut String,
) -> bool {
    let text = if text == "nothing" { "" } else { text };
    match Summary::of_text(alloc, text.as_bytes()) {
        Ok(summary) => add_read(out, &summary) && summaries.put(alloc, name, summary),
        Err(SummaryFault::OutOfMemory) => false,
        Err(fault) => add_fault(out, fault),
    }
}

/// Whether the text of a summary is read as the same.
fn is_same_by_text(alloc: Global, summary: &Summary) -> Option<bool> {
    let text = summary.to_text().ok()?;
    match Summary::of_text(alloc, text.as_str().as_bytes()) {
        Ok(read) => Some(read.same(summary)),
        Err(SummaryFault::OutOfMemory) => None,
        Err(_) => Some(false),
    }
}

/// `again NAME`: whether the text of a summary is read as the same.
pub fn again(alloc: Global, summaries: &Shelf<Summary>, words: &[&str], out: &mut String) -> bool {
    let [name] = words else {
        return false;
    };
    match summaries.get(name) {
        Some(summary) => match is_same_by_text(alloc, summary) {
            Some(is_same) => truth(out, is_same),
            None => false,
        },
        None => false,
    }
}

/// What two summaries tell.
fn of_two(word: &str, one: &Summary, other: &Summary, out: &mut String) -> bool {
    match word {
        "alike" => truth(out, one.same(other)),
        "covers" => truth(out, one.covers(other)),
        _ => false,
    }
}

/// `alike|covers ONE OTHER`: whether two summaries are the same, or the first has all that the
/// second has.
pub fn compare(summaries: &Shelf<Summary>, word: &str, words: &[&str], out: &mut String) -> bool {
    let [one, other] = words else {
        return false;
    };
    match (summaries.get(one), summaries.get(other)) {
        (Some(one), Some(other)) => of_two(word, one, other, out),
        _ => false,
    }
}

/// Adds the numbers of a source, or that it isn't there.
fn add_source(out: &mut String, summary: &Summary, source: &str) -> bool {
    match summary.of_source(source) {
        Some(numbers) => spans_line(out, numbers),
        None => line(out, "none"),
    }
}

/// Adds the sources of a summary, with how many there are.
fn add_names(out: &mut String, summary: &Summary) -> bool {
    let len = summary.len();
    if !number(out, len) {
        return false;
    }
    for i in 0..len {
        if !(out.push(' ').is_ok() && out.push_str(summary.source_at(i)).is_ok()) {
            return false;
        }
    }
    out.push('\n').is_ok()
}

/// `text|version|names NAME`, `of NAME SOURCE`, `has NAME SOURCE NUMBER`: what a summary tells.
pub fn tell(summaries: &Shelf<Summary>, word: &str, words: &[&str], out: &mut String) -> bool {
    let [name, more @ ..] = words else {
        return false;
    };
    let Some(summary) = summaries.get(name) else {
        return false;
    };
    match (word, more) {
        ("text", []) => as_line(out, summary.to_text()),
        ("version", []) => number(out, summary.version()) && out.push('\n').is_ok(),
        ("names", []) => add_names(out, summary),
        ("of", [source]) => add_source(out, summary, source),
        ("has", [source, number]) => match sequence_of(number) {
            Some(number) => truth(out, summary.contains(source, number)),
            None => false,
        },
        _ => false,
    }
}
