//! Schedules among sites.

use crate::events::fill;
use crate::said::{Said, batch, line, lines, number, truth};
use crate::shelf::Shelf;
use crate::sites::calls::covers;
use crate::words::number_of;
use attributes::{Batch, Sequenced, Text};
use exchange::{Step, Steps, Stop, World, run};
use site::Site;
use std::alloc::Global;
use views::Query;

/// So many sites, and the words of the steps that they are to make.
#[derive(Drop)]
pub struct Schedule {
    sites: u32,
    steps: Vec<Text>,
}

/// The number of a site, or of a step.
fn at(word: &str) -> Option<u32> {
    word.parse::<u32>().ok()
}

/// `schedule NAME SITES`: none of its steps is there yet.
pub fn begin(alloc: Global, all: &mut Shelf<Schedule>, words: &[&str]) -> bool {
    let [name, sites] = words else {
        return false;
    };
    match at(sites) {
        Some(sites) => {
            let steps = Vec::new(alloc);
            all.put(alloc, name, Schedule { sites, steps })
        }
        None => false,
    }
}

/// `then NAME STEP`: a step more, which is `deliver SITE EVENT..`, `gossip|scrub FROM TO` or
/// `flush|restart SITE`.
pub fn then(alloc: Global, all: &mut Shelf<Schedule>, name: &str, step: &str) -> bool {
    match (all.get_mut(name), Text::of(alloc, step)) {
        (Some(schedule), Ok(step)) => schedule.steps.push(step).is_ok(),
        _ => false,
    }
}

/// The step of one site or between two.
fn step_of(word: &str, site: u32, to: u32) -> Option<Step> {
    match word {
        "gossip" => Some(Step::Gossip { from: site, to }),
        "scrub" => Some(Step::Scrub { from: site, to }),
        "flush" => Some(Step::Flush { site }),
        "restart" => Some(Step::Restart { site }),
        _ => None,
    }
}

/// Adds a step, and answers whether it did.
fn push(steps: &mut Steps, step: Option<Step>) -> bool {
    match step {
        Some(step) => steps.push(step).is_ok(),
        None => false,
    }
}

/// Adds that a site takes events, and answers whether it did.
fn deliver(
    alloc: Global,
    steps: &mut Steps,
    events: &Shelf<Sequenced>,
    site: u32,
    names: &[&str],
) -> bool {
    let mut batch = Batch::empty(alloc);
    fill(events, &mut batch, names) && steps.push(Step::Deliver { site, batch }).is_ok()
}

/// Adds the step of words, and answers whether it did.
fn add(alloc: Global, steps: &mut Steps, events: &Shelf<Sequenced>, words: &[&str]) -> bool {
    match words {
        ["deliver", site, names @ ..] => match at(site) {
            Some(site) => deliver(alloc, steps, events, site, names),
            None => false,
        },
        [word, from, to] => match (at(from), at(to)) {
            (Some(from), Some(to)) => push(steps, step_of(word, from, to)),
            _ => false,
        },
        [word, site] => match at(site) {
            Some(site) => push(steps, step_of(word, site, site)),
            None => false,
        },
        _ => false,
    }
}

/// Adds the step of a text, and answers whether it did.
fn add_text(alloc: Global, steps: &mut Steps, events: &Shelf<Sequenced>, text: &str) -> bool {
    let words: Result<Vec<&str>, _> = text.split_whitespace().collect(alloc);
    match words {
        Ok(words) => add(alloc, steps, events, words.as_slice()),
        Err(_) => false,
    }
}

/// Adds those of the steps `WORD SITE AFTER` that are due after so many of the schedule.
fn add_due(steps: &mut Steps, due: &[&str], after: u32) -> bool {
    let mut rest = due;
    for _step in 0..2u8 {
        match rest {
            [word, site, when, more @ ..] => {
                let is_added = match (at(site), at(when)) {
                    (Some(site), Some(when)) => when != after
                        || push(steps, step_of(word, site, site)),
                    _ => false,
                };
                if !is_added {
                    return false;
                }
                rest = more;
            }
            _ => return rest.is_empty(),
        }
    }
    rest.is_empty()
}

/// Adds the steps of a schedule and what is due between them, and answers whether it did.
fn add_all(
    alloc: Global,
    steps: &mut Steps,
    texts: &[Text],
    events: &Shelf<Sequenced>,
    due: &[&str],
) -> bool {
    let mut after = 0u32;
    for text in texts {
        if !add_due(steps, due, after) || !add_text(alloc, steps, events, text.as_str()) {
            return false;
        }
        after = after.saturating_add(1);
    }
    add_due(steps, due, after)
}

/// Adds the numbers of the events of a site, as they came.
fn came(out: &mut String, site: &Site) -> bool {
    if out.push('[').is_err() {
        return false;
    }
    for i in 0..site.arrived() {
        let is_said = (i == 0 || out.push(' ').is_ok())
            && number(out, site.arrived_at(i).number().number());
        if !is_said {
            return false;
        }
    }
    out.push(']').is_ok()
}

/// Adds what came to a site of a world, and how many of its arrivals outlast a restart.
fn stands(out: &mut String, world: &World, i: u64) -> bool {
    if i >= world.sites() {
        return false;
    }
    let kept = world.kept(i);
    came(out, world.site(i)) && write!(out, " kept {kept}").is_ok()
}

/// Adds how a world stands where a run stopped.
fn stopped(out: &mut String, world: &World, done: u64, part: u64) -> bool {
    if write!(out, "after {done} steps and {part} events:").is_err() {
        return false;
    }
    for i in 0..world.sites() {
        if !(out.push(' ').is_ok() && stands(out, world, i)) {
            return false;
        }
    }
    true
}

/// Adds the events of a site of a world as they came, 100 at most, how many of its arrivals outlast a
/// restart, and what is shown, in conflict and covered.
fn answer(out: &mut String, world: &World, i: u64) -> bool {
    if i >= world.sites() {
        return false;
    }
    let (site, kept) = (world.site(i), world.kept(i));
    batch(out, site.arrivals_after(0, 100))
        && write!(out, "kept {kept}\n").is_ok()
        && lines(out, site.lines(Query::Shown))
        && lines(out, site.lines(Query::Conflicts))
        && lines(out, site.lines(Query::Cover))
}

/// Adds how a site of a world stands and what it covers, or its events and answers.
fn tell(out: &mut String, world: &World, word: &str, i: u64) -> bool {
    if word == "tell" {
        return answer(out, world, i);
    }
    stands(out, world, i)
        && out.push(' ').is_ok()
        && i < world.sites()
        && covers(out, world.site(i))
}

/// Adds how each site of a world stands.
fn tell_all(out: &mut String, world: &World, word: &str) -> bool {
    for i in 0..world.sites() {
        if !tell(out, world, word, i) {
            return false;
        }
    }
    world.sites() > 0 || line(out, "no sites")
}

/// Runs steps among sites that are made before it.
fn run_apart(alloc: Global, world: &mut World, sites: u32, steps: &Steps, said: &mut Said) -> bool {
    if world.sites() != sites as u64 || !steps.fits(sites) {
        return line(&mut said.text, "no such site");
    }
    match world.run(alloc, steps) {
        Ok(()) => tell_all(&mut said.text, world, "begin"),
        Err(Stop { done, part }) => {
            let _is_told = stopped(&mut said.left, world, done, part);
            false
        }
    }
}

/// Runs steps, which makes their sites.
fn run_whole(alloc: Global, word: &str, sites: u32, steps: &Steps, said: &mut Said) -> bool {
    if !steps.fits(sites) {
        return line(&mut said.text, "no such site");
    }
    match run(alloc, sites, steps) {
        Ok(world) => tell_all(&mut said.text, &world, word),
        Err(short) => {
            let _is_told = stopped(&mut said.left, &short.world, short.done, short.part);
            false
        }
    }
}

/// Runs steps, with the sites made by the run or before it.
fn run_them(alloc: Global, word: &str, sites: u32, steps: &Steps, said: &mut Said) -> bool {
    if word != "begin" {
        return run_whole(alloc, word, sites, steps, said);
    }
    match World::begin(alloc, sites) {
        Ok(mut world) => run_apart(alloc, &mut world, sites, steps, said),
        Err(_) => false,
    }
}

/// `run|tell|begin NAME [flush|restart SITE AFTER]..`: how each site stands after the steps, and after
/// those between them; by `tell` with its events and answers; by `begin` the sites are made before the
/// run.
pub fn run_it(
    alloc: Global,
    all: &Shelf<Schedule>,
    events: &Shelf<Sequenced>,
    word: &str,
    words: &[&str],
    said: &mut Said,
) -> bool {
    let [name, due @ ..] = words else {
        return false;
    };
    let Some(schedule) = all.get(name) else {
        return false;
    };
    let mut steps = Steps::empty(alloc);
    add_all(alloc, &mut steps, schedule.steps.as_slice(), events, due)
        && run_them(alloc, word, schedule.sites, &steps, said)
}

/// `steps NAME SITES`: how many steps a schedule has, and whether so many sites are enough for it.
pub fn steps_of(
    alloc: Global,
    all: &Shelf<Schedule>,
    events: &Shelf<Sequenced>,
    words: &[&str],
    out: &mut String,
) -> bool {
    let [name, sites] = words else {
        return false;
    };
    let (Some(schedule), Some(sites)) = (all.get(name), number_of(sites)) else {
        return false;
    };
    let mut steps = Steps::empty(alloc);
    add_all(alloc, &mut steps, schedule.steps.as_slice(), events, &[])
        && number(out, steps.len())
        && out.push(' ').is_ok()
        && match u32::try_from(sites) {
            Ok(sites) => truth(out, steps.fits(sites)),
            Err(_) => false,
        }
}
