//! Calls of the blocks of numbers, and of their digests.

use crate::events::fill;
use crate::said::{line, number};
use crate::sets::numbers::sequence_of;
use crate::shelf::Shelf;
use crate::words::number_of;
use attributes::{Batch, Sequenced};
use block_digests::{Blocks, block_of, digest_of_block};
use coverage::Summary;
use inbox::Inbox;
use inbox::laws::sets_are_members;
use std::alloc::Global;
use std::collections::BTreeMap;

/// `block NUMBER`: the block of a number.
pub fn block(words: &[&str], out: &mut String) -> bool {
    let [word] = words else {
        return false;
    };
    match sequence_of(word) {
        Some(own) => number(out, block_of(own)) && out.push('\n').is_ok(),
        None => false,
    }
}

/// Adds a digest in hexadecimal digits, or that there is none.
fn add_digest(alloc: Global, out: &mut String, digest: Option<&[u8; 32]>) -> bool {
    match digest {
        Some(digest) => match hex::encode(alloc, *digest) {
            Ok(digits) => line(out, digits.as_str()),
            Err(_) => false,
        },
        None => line(out, "none"),
    }
}

/// `digest SOURCE BLOCK EVENT..`: the digest of a block of events.
pub fn digest(alloc: Global, all: &Shelf<Sequenced>, words: &[&str], out: &mut String) -> bool {
    let [source, k, names @ ..] = words else {
        return false;
    };
    let Some(k) = number_of(k) else {
        return false;
    };
    let mut batch = Batch::empty(alloc);
    if !fill(all, &mut batch, names) {
        return false;
    }
    match digest_of_block(alloc, &batch, source, k) {
        Ok(digest) => add_digest(alloc, out, digest.as_ref()),
        Err(_) => false,
    }
}

/// The summary of an inbox's events, which stand in key order.
fn summary_of(alloc: Global, inbox: &Inbox) -> Option<Summary> {
    sets_are_members();
    Summary::of_events(alloc, &inbox.events().ok()?).ok()
}

/// `sum INBOX NAME`: the summary of an inbox's events has that name from now on.
pub fn sum(
    alloc: Global,
    inboxes: &Shelf<Inbox>,
    summaries: &mut Shelf<Summary>,
    words: &[&str],
) -> bool {
    let [inbox, name] = words else {
        return false;
    };
    let made = match inboxes.get(inbox) {
        Some(inbox) => summary_of(alloc, inbox),
        None => None,
    };
    match made {
        Some(summary) => summaries.put(alloc, name, summary),
        None => false,
    }
}

/// `digits NAME SOURCE BLOCK`: the digest that a summary has of a block.
pub fn digits(alloc: Global, summaries: &Shelf<Summary>, words: &[&str], out: &mut String) -> bool {
    let [name, source, k] = words else {
        return false;
    };
    match (summaries.get(name), number_of(k)) {
        (Some(summary), Some(k)) => add_digest(alloc, out, summary.digest_of(source, k)),
        _ => false,
    }
}

/// `note NAME INBOX EVENT`: the blocks of that name note an event that comes behind those of an
/// inbox.
pub fn note(
    all: &mut Shelf<Blocks>,
    inboxes: &Shelf<Inbox>,
    events: &Shelf<Sequenced>,
    words: &[&str],
) -> bool {
    let [name, inbox, event] = words else {
        return false;
    };
    match (all.get_mut(name), inboxes.get(inbox), events.get(event)) {
        (Some(blocks), Some(inbox), Some(event)) => blocks.note(event, inbox.arrived()).is_ok(),
        _ => false,
    }
}

/// `forget NAME EVENT`: the note of an event is taken back.
pub fn forget(all: &mut Shelf<Blocks>, events: &Shelf<Sequenced>, words: &[&str]) -> bool {
    let [name, event] = words else {
        return false;
    };
    match (all.get_mut(name), events.get(event)) {
        (Some(blocks), Some(event)) => {
            blocks.forget(event);
            true
        }
        _ => false,
    }
}

/// `mend NAME INBOX`: makes the digests anew that are stale.
pub fn mend(all: &mut Shelf<Blocks>, inboxes: &Shelf<Inbox>, words: &[&str]) -> bool {
    let [name, inbox] = words else {
        return false;
    };
    match (all.get_mut(name), inboxes.get(inbox)) {
        (Some(blocks), Some(inbox)) => blocks.mend(inbox).is_ok(),
        _ => false,
    }
}

/// Adds the digest of a block of the source `/orders` among all digests.
fn add_kept(
    alloc: Global,
    out: &mut String,
    digests: &BTreeMap<String, BTreeMap<u64, [u8; 32]>>,
    k: u64,
) -> bool {
    match digests.get("/orders") {
        Some(own) => add_digest(alloc, out, own.get(&k)),
        None => line(out, "none"),
    }
}

/// `kept NAME INBOX BLOCK`: the digest of a block of the source `/orders`, as blocks have it.
pub fn kept(
    alloc: Global,
    all: &Shelf<Blocks>,
    inboxes: &Shelf<Inbox>,
    words: &[&str],
    out: &mut String,
) -> bool {
    let [name, inbox, k] = words else {
        return false;
    };
    let (Some(blocks), Some(inbox), Some(k)) = (all.get(name), inboxes.get(inbox), number_of(k))
    else {
        return false;
    };
    match blocks.digests(inbox) {
        Ok(digests) => add_kept(alloc, out, &digests, k),
        Err(_) => false,
    }
}
