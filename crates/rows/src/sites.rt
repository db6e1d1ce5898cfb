//! Calls on sites, their exchanges and the views that they keep.

mod calls;
mod keeping;
mod schedules;

use crate::events;
use crate::said::Said;
use crate::shelf::Shelf;
use crate::sites::calls::{Shown, Way};
use crate::sites::keeping::Kept;
use crate::sites::schedules::Schedule;
use attributes::Sequenced;
use coverage::Summary;
use site::Site;
use std::alloc::Global;

/// What has a name.
#[derive(Drop)]
pub struct Values {
    events: Shelf<Sequenced>,
    sites: Shelf<Site>,
    peers: Shelf<Summary>,
    schedules: Shelf<Schedule>,
    kept: Shelf<Kept>,
}

impl Values {
    /// Nothing yet.
    pub fn empty(alloc: Global) -> Values {
        Values {
            events: Shelf::empty(alloc),
            sites: Shelf::empty(alloc),
            peers: Shelf::empty(alloc),
            schedules: Shelf::empty(alloc),
            kept: Shelf::empty(alloc),
        }
    }
}

/// A call of a schedule.
fn of_schedule(
    alloc: Global,
    values: &mut Values,
    word: &str,
    words: &[&str],
    said: &mut Said,
) -> bool {
    match word {
        "schedule" => schedules::begin(alloc, &mut values.schedules, words),
        "steps" => schedules::steps_of(
            alloc,
            &values.schedules,
            &values.events,
            words,
            &mut said.text,
        ),
        "run" | "tell" | "begin" => schedules::run_it(
            alloc,
            &values.schedules,
            &values.events,
            word,
            words,
            said,
        ),
        _ => false,
    }
}

/// A call of views beside an inbox.
fn of_views(
    rt: &HostRuntime,
    values: &mut Values,
    word: &str,
    words: &[&str],
    said: &mut Said,
) -> bool {
    match word {
        "views" => keeping::begin(rt, &mut values.kept, words),
        "feed" => keeping::feed(&mut values.kept, &values.events, words),
        "view" => keeping::view(rt.alloc(), &values.kept, words, &mut said.text),
        "remake" => keeping::remake(rt, &mut values.kept, words),
        _ => of_schedule(rt.alloc(), values, word, words, said),
    }
}

/// A call that asks a site.
fn of_asked(
    rt: &HostRuntime,
    values: &mut Values,
    word: &str,
    words: &[&str],
    said: &mut Said,
) -> bool {
    match word {
        "ask" | "lines" => calls::ask(rt.alloc(), &values.sites, word, words, &mut said.text),
        "covers" | "size" | "keeps" => calls::tell(&values.sites, word, words, &mut said.text),
        "page" | "after" => calls::page(&values.sites, word, words, &mut said.text),
        "part" => calls::part(&values.sites, &values.peers, words, &mut said.text),
        "version" => calls::version(&values.peers, words, &mut said.text),
        _ => of_views(rt, values, word, words, said),
    }
}

/// A call that tells a peer of what it lacks.
fn of_delta(
    values: &mut Values,
    word: &str,
    words: &[&str],
    said: &mut Said,
    shown: Shown,
) -> bool {
    calls::delta(
        &mut values.sites,
        &values.peers,
        word,
        words,
        &mut said.text,
        shown,
    )
}

/// Makes the call of these words; answers whether all that it is to tell is told.
fn call(
    rt: &HostRuntime,
    values: &mut Values,
    word: &str,
    words: &[&str],
    said: &mut Said,
) -> bool {
    let alloc = rt.alloc();
    match (word, words) {
        ("event", _) => events::event(alloc, &mut values.events, words),
        ("site", [name]) => values.sites.put(alloc, name, Site::empty(alloc)),
        ("peer", [name]) => values.peers.put(alloc, name, Summary::empty(alloc)),
        ("has", _) => calls::has(alloc, &mut values.peers, words),
        ("take", _) => calls::take(alloc, &mut values.sites, &values.events, words, said),
        ("scatter", _) => calls::take_scattered(alloc, &mut values.sites, words, said),
        ("merge", _) => calls::across(Way::Merge, &mut values.sites, words, said),
        ("gossip", _) => calls::across(Way::Gossip, &mut values.sites, words, said),
        ("scrub", _) => calls::across(Way::Scrub, &mut values.sites, words, said),
        ("summary", _) => calls::summary(
            alloc,
            &mut values.sites,
            &mut values.peers,
            words,
            &mut said.text,
        ),
        ("keep", _) => calls::keep(rt, &mut values.sites, words, said),
        ("delta", _) | ("next", _) => of_delta(values, word, words, said, Shown::Each),
        ("count", [word, words @ ..]) => of_delta(values, word, words, said, Shown::Count),
        _ => of_asked(rt, values, word, words, said),
    }
}

impl Values {
    /// Makes the call of a line, and adds what it answers; answers whether all of it is told.
    pub fn play(&mut self, rt: &HostRuntime, line: &str, said: &mut Said) -> bool {
        if let Some(step) = line.strip_prefix("then ") {
            return match step.split_once(' ') {
                Some((name, step)) => schedules::then(rt.alloc(), &mut self.schedules, name, step),
                None => false,
            };
        }
        let words: Result<Vec<&str>, _> = line.split_whitespace().collect(rt.alloc());
        match words {
            Ok(words) => match words.as_slice() {
                [word, words @ ..] => call(rt, self, word, words, said),
                _ => false,
            },
            Err(_) => false,
        }
    }
}
