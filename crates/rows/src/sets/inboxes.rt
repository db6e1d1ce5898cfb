//! Calls of inboxes, and questions about them.

use crate::events::made;
use crate::said::{Said, batch, events, line, lines, number};
use crate::shelf::Shelf;
use crate::words::{number_of, query_of};
use attributes::{Batch, Sequenced, Text};
use inbox::{Conflict, Conflicts, Counts, Inbox, Short, Taken};
use std::alloc::{AllocError, Global};
use views::{Answer, Query, answer, print};

/// Adds how many events an inbox has, and how many came.
fn add_size(out: &mut String, inbox: &Inbox) -> bool {
    let (held, arrived) = (inbox.len(), inbox.arrived());
    write!(out, "{held} held, {arrived} came").is_ok()
}

/// Takes a copy of an event, and answers whether it is new.
fn take_copy(inbox: &mut Inbox, event: &Sequenced) -> Option<bool> {
    Some(inbox.take(event.copy().ok()?).ok()? == Taken::New)
}

/// Takes a copy of an event; what was refused is taken once there is memory, and what the inbox has
/// by then is left.
fn take_one(inbox: &mut Inbox, event: &Sequenced, said: &mut Said) -> Option<bool> {
    match take_copy(inbox, event) {
        Some(is_new) => Some(is_new),
        None => {
            if add_size(&mut said.left, inbox) {
                take_copy(inbox, event)
            } else {
                None
            }
        }
    }
}

/// `take NAME EVENT..`: of each event whether it is new, or there again.
pub fn take(
    inboxes: &mut Shelf<Inbox>,
    all: &Shelf<Sequenced>,
    words: &[&str],
    said: &mut Said,
) -> bool {
    let [name, names @ ..] = words else {
        return false;
    };
    let Some(inbox) = inboxes.get_mut(name) else {
        return false;
    };
    for name in names {
        let is_new = match all.get(name) {
            Some(event) => take_one(inbox, event, said),
            None => None,
        };
        let word = match is_new {
            Some(true) => "new",
            Some(false) => "again",
            None => return false,
        };
        let is_said = (said.text.is_empty() || said.text.push(' ').is_ok())
            && said.text.push_str(word).is_ok();
        if !is_said {
            return false;
        }
    }
    said.text.push('\n').is_ok()
}

/// Takes an event with a number as its id, and answers whether it is new.
fn take_numbered(alloc: Global, inbox: &mut Inbox, n: u64) -> Option<bool> {
    let id = format!(in alloc; "{n:06}").ok()?;
    let event = made(alloc, id.as_str(), 1, "t.a", &[])?;
    Some(inbox.take(event).ok()? == Taken::New)
}

/// Takes 5,003 events, scattered, and answers how many are new.
fn take_scattered(alloc: Global, inbox: &mut Inbox) -> Option<u64> {
    let mut fresh = 0u64;
    for k in 0..5003u64 {
        if take_numbered(alloc, inbox, k * 7 % 5003)? {
            fresh = fresh.saturating_add(1);
        }
    }
    Some(fresh)
}

/// `scatter NAME`: takes 5,003 events of one number, whose ids are scattered; how many are new.
pub fn scatter(
    alloc: Global,
    inboxes: &mut Shelf<Inbox>,
    words: &[&str],
    out: &mut String,
) -> bool {
    let [name] = words else {
        return false;
    };
    match inboxes.get_mut(name) {
        Some(inbox) => match take_scattered(alloc, inbox) {
            Some(fresh) => write!(out, "{fresh} new\n").is_ok(),
            None => false,
        },
        None => false,
    }
}

/// Whether the event at place k has k as its id and is shown.
fn has_its_place_as_id(alloc: Global, inbox: &Inbox, k: u64) -> Option<bool> {
    let id = format!(in alloc; "{k:06}").ok()?;
    Some(k < inbox.len() && inbox.at(k).event().id() == id.as_str() && inbox.is_shown(k))
}

/// How many events have their places as ids and are shown.
fn in_order(alloc: Global, inbox: &Inbox) -> Option<u64> {
    let mut count = 0u64;
    for k in 0..inbox.len() {
        if has_its_place_as_id(alloc, inbox, k)? {
            count = count.saturating_add(1);
        }
    }
    Some(count)
}

/// `order NAME`: how many events have their places as ids and are shown.
pub fn order(alloc: Global, inboxes: &Shelf<Inbox>, words: &[&str], out: &mut String) -> bool {
    let [name] = words else {
        return false;
    };
    match inboxes.get(name) {
        Some(inbox) => match in_order(alloc, inbox) {
            Some(count) => write!(out, "{count} in order\n").is_ok(),
            None => false,
        },
        None => false,
    }
}

/// Adds how many events were new and how many were there.
fn counts(out: &mut String, counts: Counts) -> bool {
    let Counts { fresh, repeated } = counts;
    write!(out, "new {fresh} repeated {repeated}\n").is_ok()
}

/// Adds how far a merge came that memory was refused to, and what the inbox then has.
fn merged_to(out: &mut String, short: &Short, inbox: &Inbox) -> bool {
    let Short { taken, fresh } = short;
    write!(out, "went through {taken}, of which {fresh} new; ").is_ok() && add_size(out, inbox)
}

/// An inbox takes what another has; what is left where memory was refused comes once there is some.
fn merge_all(from: &Inbox, to: &mut Inbox, said: &mut Said) -> bool {
    let short = match to.merge(from) {
        Ok(told) => return counts(&mut said.text, told),
        Err(short) => short,
    };
    let is_told = merged_to(&mut said.left, &short, to);
    match to.merge(from) {
        Ok(more) => {
            let told = Counts {
                fresh: short.fresh.saturating_add(more.fresh),
                repeated: more.repeated.saturating_sub(short.fresh),
            };
            is_told && counts(&mut said.text, told)
        }
        Err(_) => false,
    }
}

/// `merge FROM TO`: how many events were new and how many were there.
pub fn merge(inboxes: &mut Shelf<Inbox>, words: &[&str], said: &mut Said) -> bool {
    let [from, to] = words else {
        return false;
    };
    match inboxes.two(from, to) {
        Some((from, to)) => merge_all(from, to, said),
        None => false,
    }
}

/// `room NAME COUNT`: makes room for so many events.
pub fn room(inboxes: &mut Shelf<Inbox>, words: &[&str]) -> bool {
    let [name, count] = words else {
        return false;
    };
    match (inboxes.get_mut(name), number_of(count)) {
        (Some(inbox), Some(count)) => inbox.reserve(count).is_ok(),
        _ => false,
    }
}

/// Puts a copy of an event into the room that there is, and adds whether it is new.
fn put_copy(inbox: &mut Inbox, event: &Sequenced, out: &mut String) -> bool {
    match event.copy() {
        Ok(event) => {
            if inbox.spare() == 0 {
                return line(out, "no room");
            }
            line(
                out,
                if inbox.put(event) == Taken::New {
                    "new"
                } else {
                    "again"
                },
            )
        }
        Err(_) => false,
    }
}

/// `put NAME EVENT`: an event goes into the room that there is.
pub fn put(
    inboxes: &mut Shelf<Inbox>,
    all: &Shelf<Sequenced>,
    words: &[&str],
    out: &mut String,
) -> bool {
    let [name, event] = words else {
        return false;
    };
    match (inboxes.get_mut(name), all.get(event)) {
        (Some(inbox), Some(event)) => put_copy(inbox, event, out),
        _ => false,
    }
}

/// `place NAME EVENT`: the place of an event in key order, or the one that it would have.
pub fn place(
    inboxes: &Shelf<Inbox>,
    all: &Shelf<Sequenced>,
    words: &[&str],
    out: &mut String,
) -> bool {
    let [name, event] = words else {
        return false;
    };
    match (inboxes.get(name), all.get(event)) {
        (Some(inbox), Some(event)) => match inbox.place_of(event) {
            Ok(place) => write!(out, "{place}\n").is_ok(),
            Err(place) => write!(out, "none, would be {place}\n").is_ok(),
        },
        _ => false,
    }
}

/// Adds the conflicts, a line each.
fn conflicts(inbox: &Inbox, out: &mut String) -> bool {
    let Ok(conflicts) = inbox.conflicts() else {
        return false;
    };
    for i in 0..conflicts.len() {
        let conflict = conflicts.at(i);
        let is_said = out.push_str(conflict.source.as_str()).is_ok()
            && out.push(' ').is_ok()
            && out.push_str(conflict.id.as_str()).is_ok()
            && out.push_str(": ").is_ok()
            && events(out, &conflict.events);
        if !is_said {
            return false;
        }
    }
    !conflicts.is_empty() || line(out, "none")
}

/// Adds the types of the events, as they came.
fn arrivals(inbox: &Inbox, out: &mut String) -> bool {
    for i in 0..inbox.arrived() {
        let event = inbox.arrived_at(i).event();
        let is_said = (i == 0 || out.push(' ').is_ok())
            && out.push_str(event.id()).is_ok()
            && out.push(':').is_ok()
            && out.push_str(event.kind()).is_ok();
        if !is_said {
            return false;
        }
    }
    out.push('\n').is_ok()
}

/// The type of the shown event of an id.
fn shown_of(inbox: &Inbox, id: &str, out: &mut String) -> bool {
    match inbox.shown_of("/orders", id) {
        Some(event) => line(out, event.event().kind()),
        None => line(out, "none"),
    }
}

/// `all|best|size|came|rivals NAME`, `best NAME ID`: what an inbox tells: its events, those that are
/// shown, how many there are, how they came, and its conflicts; or the type of the shown event of an
/// id.
pub fn tell(inboxes: &Shelf<Inbox>, word: &str, words: &[&str], out: &mut String) -> bool {
    let [name, more @ ..] = words else {
        return false;
    };
    let Some(inbox) = inboxes.get(name) else {
        return false;
    };
    match (word, more) {
        ("all", []) => batch(out, inbox.events()),
        ("best", []) => batch(out, inbox.shown()),
        ("best", [id]) => shown_of(inbox, id, out),
        ("size", []) => add_size(out, inbox) && out.push('\n').is_ok(),
        ("came", []) => arrivals(inbox, out),
        ("rivals", []) => conflicts(inbox, out),
        _ => false,
    }
}

/// The lines of the answer to a question.
fn answer_of(alloc: Global, inbox: &Inbox, query: Query) -> Result<Text, AllocError> {
    match answer(alloc, inbox, query) {
        Ok(answer) => print(alloc, &answer),
        Err(error) => Err(error),
    }
}

/// `ask NAME QUESTION`: the answer, printed.
pub fn ask(alloc: Global, inboxes: &Shelf<Inbox>, words: &[&str], out: &mut String) -> bool {
    let [name, query] = words else {
        return false;
    };
    match (inboxes.get(name), query_of(query)) {
        (Some(inbox), Some(query)) => lines(out, answer_of(alloc, inbox, query)),
        _ => false,
    }
}

/// Adds the number of the first day of an answer.
fn add_day(out: &mut String, found: &Answer) -> bool {
    match found {
        Answer::Days(days) => {
            if days.is_empty() {
                return line(out, "none");
            }
            let day = days.at(0).0.1.number();
            write!(out, "{day}\n").is_ok()
        }
        _ => false,
    }
}

/// `day NAME`: the number of the first day on which events are.
pub fn day(alloc: Global, inboxes: &Shelf<Inbox>, words: &[&str], out: &mut String) -> bool {
    let [name] = words else {
        return false;
    };
    let found = match inboxes.get(name) {
        Some(inbox) => answer(alloc, inbox, Query::Days),
        None => return false,
    };
    match found {
        Ok(found) => add_day(out, &found),
        Err(_) => false,
    }
}

/// `conflict SOURCE ID`: pushes a conflict without events to a list of none; how many it then has.
pub fn conflict(alloc: Global, words: &[&str], out: &mut String) -> bool {
    let [source, id] = words else {
        return false;
    };
    let mut conflicts = Conflicts::empty(alloc);
    match (Text::of(alloc, source), Text::of(alloc, id)) {
        (Ok(source), Ok(id)) => {
            let events = Batch::empty(alloc);
            conflicts.push(Conflict { source, id, events }).is_ok()
                && number(out, conflicts.len())
                && out.push('\n').is_ok()
        }
        _ => false,
    }
}
