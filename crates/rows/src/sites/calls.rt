//! Calls of sites.

ghost use Rattle.std.specs.Prelude.{◌≤◌, IfSome};

use crate::events::{add_numbered, fill};
use crate::said::{Said, as_line, batch, events, line, lines, number, truth};
use crate::shelf::Shelf;
use crate::words::{number_of, query_of};
use attributes::{Batch, Sequence, Sequenced, Text};
use coverage::Summary;
use exchange::{gossip, scrub};
use inbox::{Counts, Short};
use site::{DeltaPart, Site};
use std::alloc::{AllocError, Global};
use std::hash::RandomState;
use views::{Answer, Query, print};

/// How many events a page may have.
fn limit(word: &str) -> Option<u64>
    ensures low { IfSome result (λ n. 1 ≤ n) }
    ensures high { IfSome result (λ n. n ≤ 100) }
{
    let limit = number_of(word)?;
    if (1..=100).contains(&limit) {
        Some(limit)
    } else {
        None
    }
}

/// Adds how many events were new and how many were there.
fn counts(out: &mut String, counts: Counts) -> bool {
    let Counts { fresh, repeated } = counts;
    write!(out, "new {fresh} repeated {repeated}\n").is_ok()
}

/// Adds how far a call came that memory was refused to, and how many events came to the site.
fn came_to(out: &mut String, short: &Short, site: &Site) -> bool {
    let Short { taken, fresh } = short;
    let arrived = site.arrived();
    write!(
        out,
        "went through {taken}, of which {fresh} new; {arrived} came"
    )
    .is_ok()
}

/// What a call told before memory was refused and what it told once there was some, as one.
fn both(short: &Short, more: &Counts) -> Counts {
    Counts {
        fresh: short.fresh.saturating_add(more.fresh),
        repeated: more.repeated.saturating_sub(short.fresh),
    }
}

/// A site takes a batch; what is left where memory was refused it takes once there is some.
fn take_all(site: &mut Site, batch: &mut Batch, said: &mut Said) -> bool {
    let short = match site.take_batch(batch) {
        Ok(told) => return batch.is_empty() && counts(&mut said.text, told),
        Err(short) => short,
    };
    let left = batch.len();
    let is_told = came_to(&mut said.left, &short, site)
        && write!(said.left, "; {left} left").is_ok();
    match site.take_batch(batch) {
        Ok(more) => {
            let again = short.taken.saturating_sub(short.fresh);
            let told = Counts {
                fresh: short.fresh.saturating_add(more.fresh),
                repeated: again.saturating_add(more.repeated),
            };
            is_told && batch.is_empty() && counts(&mut said.text, told)
        }
        Err(_) => false,
    }
}

/// `take SITE EVENT..`: how many were new, and how many were there.
pub fn take(
    alloc: Global,
    sites: &mut Shelf<Site>,
    events: &Shelf<Sequenced>,
    words: &[&str],
    said: &mut Said,
) -> bool {
    let [name, names @ ..] = words else {
        return false;
    };
    let mut batch = Batch::empty(alloc);
    if !fill(events, &mut batch, names) {
        return false;
    }
    match sites.get_mut(name) {
        Some(site) => take_all(site, &mut batch, said),
        None => false,
    }
}

/// Adds 100 events, each number 7 behind the one before, and back by a thousand where it is more.
fn scatter(alloc: Global, batch: &mut Batch, round: u64) -> bool {
    for k in 0..100u64 {
        let number = round
            .saturating_mul(100)
            .saturating_add(k)
            .saturating_mul(7)
            % 1000;
        if !add_numbered(alloc, batch, number.saturating_add(1)) {
            return false;
        }
    }
    true
}

/// A site takes the events of a round.
fn take_round(alloc: Global, site: &mut Site, round: u64, said: &mut Said) -> bool {
    let mut batch = Batch::empty(alloc);
    scatter(alloc, &mut batch, round) && take_all(site, &mut batch, said)
}

/// `scatter SITE`: takes 1,000 events in batches of 100, their numbers scattered, each event twice.
pub fn take_scattered(
    alloc: Global,
    sites: &mut Shelf<Site>,
    words: &[&str],
    said: &mut Said,
) -> bool {
    let [name] = words else {
        return false;
    };
    let Some(site) = sites.get_mut(name) else {
        return false;
    };
    for round in 0..20u64 {
        if !take_round(alloc, site, round, said) {
            return false;
        }
    }
    true
}

/// How one site brings another what it has.
#[derive(Clone, Copy)]
pub enum Way {
    Merge,
    Gossip,
    Scrub,
}

/// Brings a site what another has.
fn bring(way: Way, from: &Site, to: &mut Site) -> Result<Counts, Short> {
    match way {
        Way::Merge => to.merge(from),
        Way::Gossip => gossip(from, to),
        Way::Scrub => scrub(from, to),
    }
}

/// Brings a site what another has; what is left where memory was refused comes once there is some.
fn bring_all(way: Way, from: &Site, to: &mut Site, said: &mut Said) -> bool {
    let short = match bring(way, from, to) {
        Ok(told) => return counts(&mut said.text, told),
        Err(short) => short,
    };
    let is_told = came_to(&mut said.left, &short, to);
    match bring(way, from, to) {
        Ok(more) => is_told && counts(&mut said.text, both(&short, &more)),
        Err(_) => false,
    }
}

/// `merge|gossip|scrub FROM TO`: how many were new, and how many were there.
pub fn across(way: Way, sites: &mut Shelf<Site>, words: &[&str], said: &mut Said) -> bool {
    let [from, to] = words else {
        return false;
    };
    match sites.two(from, to) {
        Some((from, to)) => bring_all(way, from, to, said),
        None => false,
    }
}

/// The lines of the answer to a question.
fn answer_of(alloc: Global, site: &Site, query: Query) -> Result<Text, AllocError> {
    match site.query(query) {
        Ok(answer) => print(alloc, &answer),
        Err(error) => Err(error),
    }
}

/// Adds the numbers that a site tells that it has.
pub fn covers(out: &mut String, site: &Site) -> bool {
    match site.query(Query::Cover) {
        Ok(Answer::Cover(summary)) => as_line(out, summary.to_text()),
        _ => false,
    }
}

/// `ask|lines SITE QUESTION`: its answer, printed, or as it gives the lines itself.
pub fn ask(
    alloc: Global,
    sites: &Shelf<Site>,
    word: &str,
    words: &[&str],
    out: &mut String,
) -> bool {
    let [name, query] = words else {
        return false;
    };
    let (Some(site), Some(query)) = (sites.get(name), query_of(query)) else {
        return false;
    };
    match word {
        "ask" => lines(out, answer_of(alloc, site, query)),
        _ => lines(out, site.lines(query)),
    }
}

/// `covers|size|keeps SITE`: the numbers that it has, how many events it has and how many came, or
/// whether it keeps views.
pub fn tell(sites: &Shelf<Site>, word: &str, words: &[&str], out: &mut String) -> bool {
    let [name] = words else {
        return false;
    };
    let Some(site) = sites.get(name) else {
        return false;
    };
    match word {
        "covers" => covers(out, site),
        "keeps" => truth(out, site.keeps_views()),
        _ => {
            let (held, arrived) = (site.len(), site.arrived());
            write!(out, "{held} held, {arrived} came\n").is_ok()
        }
    }
}

/// `page|after SITE FROM LIMIT`: its events from a place of key order on, or as they came.
pub fn page(sites: &Shelf<Site>, word: &str, words: &[&str], out: &mut String) -> bool {
    let [name, from, most] = words else {
        return false;
    };
    let Some(site) = sites.get(name) else {
        return false;
    };
    let (Some(from), Some(most)) = (number_of(from), limit(most)) else {
        return false;
    };
    match word {
        "page" => batch(out, site.page(from, most)),
        _ => batch(out, site.arrivals_after(from, most)),
    }
}

/// `summary SITE NAME`: its summary has that name from now on.
pub fn summary(
    alloc: Global,
    sites: &mut Shelf<Site>,
    peers: &mut Shelf<Summary>,
    words: &[&str],
    out: &mut String,
) -> bool {
    let [name, own] = words else {
        return false;
    };
    let Some(site) = sites.get_mut(name) else {
        return false;
    };
    match site.summary() {
        Ok(summary) => as_line(out, summary.to_text()) && peers.put(alloc, own, summary),
        Err(_) => false,
    }
}

/// Adds a number of the source `/orders` to a summary, and answers whether it did.
fn insert(peer: &mut Summary, source: &Text, number: &str) -> bool {
    match number_of(number) {
        Some(number) => match Sequence::of_u64(number) {
            Some(number) => source.is_source() && peer.insert(source, number).is_ok(),
            None => false,
        },
        None => false,
    }
}

/// Adds numbers of the source `/orders` to a summary, and answers whether it did.
fn insert_all(peer: &mut Summary, source: &Text, numbers: &[&str]) -> bool {
    for number in numbers {
        if !insert(peer, source, number) {
            return false;
        }
    }
    true
}

/// `has NAME NUMBER..`: the summary of that name has these numbers of the source `/orders` too.
pub fn has(alloc: Global, peers: &mut Shelf<Summary>, words: &[&str]) -> bool {
    let [name, numbers @ ..] = words else {
        return false;
    };
    match (peers.get_mut(name), Text::of(alloc, "/orders")) {
        (Some(peer), Ok(source)) => insert_all(peer, &source, numbers),
        _ => false,
    }
}

/// `version NAME`: the version of a summary.
pub fn version(peers: &Shelf<Summary>, words: &[&str], out: &mut String) -> bool {
    let [name] = words else {
        return false;
    };
    match peers.get(name) {
        Some(peer) => number(out, peer.version() as u64) && out.push('\n').is_ok(),
        None => false,
    }
}

/// How events are told.
#[derive(Clone, Copy)]
pub enum Shown {
    /// Each, by its id and type.
    Each,
    /// How many there are, and the number of the first.
    Count,
}

/// Adds how many events there are, and the number of the first.
fn count(out: &mut String, batch: &Batch) -> bool {
    let len = batch.len();
    if len == 0 {
        return line(out, "0");
    }
    let first = batch.at(0).number().number();
    write!(out, "{len}, the first of number {first}\n").is_ok()
}

/// Adds events, and answers whether there are any.
fn show(out: &mut String, found: Result<Batch, AllocError>, shown: Shown) -> bool {
    match found {
        Ok(batch) => match shown {
            Shown::Each => events(out, &batch),
            Shown::Count => count(out, &batch),
        },
        Err(_) => false,
    }
}

/// `delta SITE PEER`, `delta|next SITE PEER FROM LIMIT`: what a peer lacks, whole or of it so many
/// from a place on.
pub fn delta(
    sites: &mut Shelf<Site>,
    peers: &Shelf<Summary>,
    word: &str,
    words: &[&str],
    out: &mut String,
    shown: Shown,
) -> bool {
    let [name, peer, more @ ..] = words else {
        return false;
    };
    let (Some(site), Some(peer)) = (sites.get_mut(name), peers.get(peer)) else {
        return false;
    };
    let [from, most] = more else {
        return more.is_empty() && show(out, site.delta(peer), shown);
    };
    let (Some(from), Some(most)) = (number_of(from), limit(most)) else {
        return false;
    };
    match word {
        "delta" => show(out, site.delta_page(peer, from, most), shown),
        _ => show(out, site.next_delta_page(peer, from, most), shown),
    }
}

/// A part of what a peer lacks, from a place on.
fn part_of(site: &Site, peer: &Summary, place: u64, limit: u64) -> Result<DeltaPart, AllocError> {
    if place > site.len() {
        return Err(AllocError);
    }
    let own = site.summary_for(peer)?;
    site.delta_from(peer, &own, place, limit)
}

/// `part SITE PEER PLACE LIMIT`: of the events from that place on what the peer lacks, so many at
/// most, and where the next part begins.
pub fn part(sites: &Shelf<Site>, peers: &Shelf<Summary>, words: &[&str], out: &mut String) -> bool {
    let [name, peer, place, most] = words else {
        return false;
    };
    let (Some(site), Some(peer)) = (sites.get(name), peers.get(peer)) else {
        return false;
    };
    let (Some(place), Some(most)) = (number_of(place), number_of(most)) else {
        return false;
    };
    match part_of(site, peer, place, most) {
        Ok(part) => {
            let next = part.next;
            events(out, &part.events) && write!(out, "the next from {next}\n").is_ok()
        }
        Err(_) => false,
    }
}

/// Asks a site to keep views by a seed of its own; tells whether it does, also where it can't.
fn keep_views(rt: &HostRuntime, site: &mut Site, said: &mut Said) -> bool {
    let Ok(state) = RandomState::new(rt) else {
        return false;
    };
    match site.keep_views(state) {
        Ok(()) => truth(&mut said.text, site.keeps_views()),
        Err(_) => {
            let word = if site.keeps_views() {
                "keeps views"
            } else {
                "keeps none"
            };
            said.left.push_str(word).is_ok() && false
        }
    }
}

/// `keep SITE`: asks it to keep views; whether it does then.
pub fn keep(rt: &HostRuntime, sites: &mut Shelf<Site>, words: &[&str], said: &mut Said) -> bool {
    let [name] = words else {
        return false;
    };
    match sites.get_mut(name) {
        Some(site) => keep_views(rt, site, said),
        None => false,
    }
}
