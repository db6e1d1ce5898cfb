//! Calls on inboxes and services, their relays and keepers, over databases in memory and over files
//! that fail.

mod acts;
mod disks;
mod inboxes;
mod keepers;
mod known;
mod memory;
mod relays;
mod services;
mod stops;

use crate::said::Said;
use crate::shelf::Shelf;
use crate::tables::acts::parted;
use crate::tables::disks::{Act, Image};
use crate::tables::known::Known;
use crate::tables::memory::Base;
use crate::tables::relays::FailsOnce;
use relay::Relay;
use std::alloc::Global;
use std::sync::Wait;

/// What has a name, and the runtime that calls wait by.
#[derive(Drop)]
pub struct Values<'a, R> {
    rt: &'a R,
    known: Known,
    bases: Shelf<Base>,
    images: Shelf<Image>,
    relays: Shelf<Relay>,
    routes: Shelf<FailsOnce>,
}

impl<'a, R> Values<'a, R> {
    /// Nothing yet.
    pub fn empty(rt: &'a R, alloc: Global) -> Values<'a, R> {
        Values {
            rt,
            known: Known::empty(alloc),
            bases: Shelf::empty(alloc),
            images: Shelf::empty(alloc),
            relays: Shelf::empty(alloc),
            routes: Shelf::empty(alloc),
        }
    }
}

/// What a word does to a database over files.
fn act_of(word: &str) -> Act {
    match word {
        "leave" => Act::Leave,
        _ => Act::Call,
    }
}

/// Calls over the files of a name, as a word says.
fn over_files<R: AllocGlobal + Wait>(
    rt: &R,
    values: &mut Values<'_, R>,
    word: &str,
    name: &str,
    calls: &str,
    said: &mut Said,
) -> bool {
    let Some(image) = values.images.get_mut(name) else {
        return false;
    };
    match word {
        "stop" => stops::stops(rt, image, &values.known, calls, said),
        _ => disks::over(rt, image, &values.known, act_of(word), calls, said),
    }
}

/// Calls over files: `stop FILES CALL..`, `leave FILES CALL..`, or `FILES CALL..`.
fn of_files<R: AllocGlobal + Wait>(
    rt: &R,
    values: &mut Values<'_, R>,
    word: &str,
    text: &str,
    said: &mut Said,
) -> bool {
    match word {
        "stop" | "leave" => {
            let (name, calls) = parted(text);
            over_files(rt, values, word, name, calls, said)
        }
        _ => over_files(rt, values, word, word, text, said),
    }
}

/// A call over a database in memory, or over files.
fn of_base<R: AllocGlobal + Wait>(
    rt: &R,
    values: &mut Values<'_, R>,
    word: &str,
    text: &str,
    said: &mut Said,
) -> bool {
    match values.bases.get_mut(word) {
        Some(base) => memory::over(rt, base, &values.known, text, said),
        None => of_files(rt, values, word, text, said),
    }
}

/// `faults inbox|service|relay|keeper`
fn faults(text: &str, out: &mut String) -> bool {
    match text {
        "inbox" => inboxes::faults(out),
        "service" => services::faults(out),
        "relay" => relays::faults(out),
        "keeper" => keepers::faults(out),
        _ => false,
    }
}

/// A step of a relay over a database in memory: `step RELAY BASE ROUTE`, or `carry RELAY BASE` as a
/// job.
fn step<R>(alloc: Global, values: &mut Values<'_, R>, words: &[&str], out: &mut String) -> bool {
    let [relay, base, route @ ..] = words else {
        return false;
    };
    let (Some(relay), Some(base)) = (values.relays.get_mut(relay), values.bases.get_mut(base))
    else {
        return false;
    };
    match route {
        [] => memory::step(alloc, base, relay, None, out),
        [route] => match values.routes.get_mut(route) {
            Some(route) => memory::step(alloc, base, relay, Some(route), out),
            None => false,
        },
        _ => false,
    }
}

/// A call of relays and routes.
fn of_relays<R>(
    alloc: Global,
    values: &mut Values<'_, R>,
    word: &str,
    words: &[&str],
    out: &mut String,
) -> bool {
    match (word, words) {
        ("relay", _) => relays::begin(alloc, &mut values.relays, words),
        ("route", _) => relays::begin_route(alloc, &mut values.routes, words),
        ("accepted", [name]) => relays::accepted(&values.routes, name, out),
        ("settle", _) => relays::settle_words(&mut values.relays, words, out),
        ("site", [name]) => relays::site(&values.relays, name, out),
        ("step", _) | ("carry", _) => step(alloc, values, words, out),
        _ => false,
    }
}

/// Makes the call of these words.
fn of_words<R>(
    alloc: Global,
    values: &mut Values<'_, R>,
    word: &str,
    words: &[&str],
    out: &mut String,
) -> bool {
    match (word, words) {
        ("event", _) => values.known.event(alloc, words),
        ("memory", _) => memory::begin(alloc, &mut values.bases, &values.known, words, out),
        ("files", [name]) => disks::begin(alloc, &mut values.images, name),
        _ => of_relays(alloc, values, word, words, out),
    }
}

impl<'a, R: AllocGlobal + Wait> Values<'a, R> {
    /// Makes the call of a line, and adds what it answers; answers whether all of it is told.
    pub fn play(&mut self, alloc: Global, line: &str, said: &mut Said) -> bool {
        let (word, text) = parted(line);
        match word {
            "event"
            | "memory"
            | "files"
            | "relay"
            | "route"
            | "accepted"
            | "settle"
            | "site"
            | "step"
            | "carry" => {
                let words: Result<Vec<&str>, _> = text.split_whitespace().collect(alloc);
                match words {
                    Ok(words) => of_words(alloc, self, word, words.as_slice(), &mut said.text),
                    Err(_) => false,
                }
            }
            "statement" => self.known.statement(alloc, text),
            "faults" => faults(text, &mut said.text),
            _ => of_base(self.rt, self, word, text, said),
        }
    }
}
