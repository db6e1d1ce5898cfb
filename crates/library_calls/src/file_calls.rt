//! What each call does to the site over a file that lies in the room.

ghost use Rattle.std.specs.Prelude.{◌≡◌, ◌≢◌, List, IfErr, IfOk, OnErr};
ghost use Rattle.library_calls.specs.Files.{IsStatusOfOwed, IsOpenedFile, KeepsBatch, KeepsBytes, KeepsNone, RefusesFile, RepliesKept, open_status, table_status};
ghost use Rattle.library_calls.specs.Offers.{IsOfferedBehind, KeepsOffers, ReadsBody};
ghost use Rattle.library_calls.specs.declared.offers.Head.{Head};
ghost use Rattle.attributes.specs.Event.{EventValue};
ghost use Rattle.sqlite.specs.Held.{state};

use crate::calls::{DONE, OUT_OF_MEMORY, Reply, batch_of};
use crate::offers::{Offers, body_of};
use attributes::{Batch, List};
use durable_site::{
    DurableSite, FileSite, GivenFiles, OpenFault, Owed, TableFault, Unknown, open_files,
};
use event_files::Refused;
use sqlite::Alter;
use std::alloc::{AllocError, Global};

/// The site wasn't opened.
pub(crate) const NOT_OPEN: u32 = 11;

/// The events are kept, and memory ran out before all were counted: the next take counts the rest.
const OWED: u32 = 20;

/// The status of libjumbetai's call that a refused opening of files is.
pub(crate) fn open_status(fault: OpenFault) -> u32
    ensures { result ≡ open_status fault }
{
    match fault {
        OpenFault::OutOfMemory => OUT_OF_MEMORY,
        OpenFault::System => 15,
        OpenFault::NoDatabase => 16,
        OpenFault::Damaged => 17,
        OpenFault::Store => 18,
        OpenFault::Foreign => 19,
    }
}

/// The status of libjumbetai's call that a refusal of the table is.
fn table_status(fault: TableFault) -> u32
    ensures { result ≡ table_status fault }
{
    match fault {
        TableFault::OutOfMemory => OUT_OF_MEMORY,
        TableFault::Store => 18,
        TableFault::Foreign => 19,
    }
}

/// Sets a reply to libjumbetai's caller that tells of no events and of no page.
pub(crate) fn tell_nothing(status: u32, length: u64, reply: &mut Reply)
    ensures { reply.new ≡ record {
      status = status;
      fresh = 0;
      repeated = 0;
      listed = 0;
      events = 0;
      length = length;
    } }
{
    reply.status = status;
    reply.fresh = 0;
    reply.repeated = 0;
    reply.listed = 0;
    reply.events = 0;
    reply.length = length;
}

/// A site over the files, whose events are all counted, or the status of libjumbetai's call.
pub(crate) fn made(alloc: Global, given: GivenFiles) -> Result<FileSite<Unknown>, u32>
    ensures ok { IfOk result IsOpenedFile }
    ensures err { IfErr result (λ status. status ≢ 0) }
    ensures refused { RefusesFile result }
{
    match open_files(alloc, given, Unknown) {
        Ok(durable) => {
            if durable.owed.is_empty() {
                Ok(durable)
            } else {
                Err(OUT_OF_MEMORY)
            }
        }
        Err(fault) => Err(open_status(fault)),
    }
}

/// The status of libjumbetai's call for events that are kept, by what is owed then.
fn kept_status(owed: &Owed) -> u32
    ensures { IsStatusOfOwed result owed.now }
{
    if owed.is_empty() {
        return DONE;
    }
    OWED
}

/// Tells the caller what the table came to, of so many events, after which these are owed.
fn reply_kept(
    kept: Result<u64, TableFault>,
    count: u64,
    owed: &Owed,
    length: u64,
    reply: &mut Reply,
)
    ensures replies { RepliesKept count kept owed.now reply.new }
    ensures listed { reply.new.listed ≡ 0 }
    ensures length { reply.new.length ≡ length }
{
    tell_nothing(DONE, length, reply);
    match kept {
        Ok(fresh) => {
            reply.status = kept_status(owed);
            reply.fresh = fresh;
            reply.repeated = count.saturating_sub(fresh);
        }
        Err(fault) => reply.status = table_status(fault),
    }
}

/// Takes the events of a batch into libjumbetai's site over files.
fn keep_batch<S: Alter + Drop>(
    durable: &mut DurableSite<S>,
    batch: Batch,
    length: u64,
    reply: &mut Reply,
)
    ensures keeps { KeepsBatch (state S.Store) batch durable.old durable.new reply.new }
    ensures length { reply.new.length ≡ length }
{
    let count = batch.len();
    let kept = durable.take(batch);
    reply_kept(kept, count, &durable.owed, length, reply);
    reply.events = durable.site.arrived();
}

/// Takes the events that were read into libjumbetai's site over files, or tells why none were.
fn settle_file<S: Alter + Drop>(
    durable: &mut DurableSite<S>,
    read: Result<Batch, Refused>,
    length: u64,
    reply: &mut Reply,
)
    ensures ok { IfOk read (λ batch. KeepsBatch (state S.Store) batch durable.old durable.new reply.new) }
    ensures err { IfErr read (λ refused. KeepsNone refused durable.old durable.new reply.new) }
    ensures length { reply.new.length ≡ length }
{
    match read {
        Ok(batch) => keep_batch(durable, batch, length, reply),
        Err(refused) => {
            tell_nothing(refused.fault.number() as u32, length, reply);
            reply.events = durable.site.arrived();
        }
    }
}

/// Takes the bytes' events into libjumbetai's site over files; so many bytes the text has.
pub(crate) fn take_events<S: Alter + Drop>(
    durable: &mut DurableSite<S>,
    alloc: Global,
    bytes: &[u8],
    length: u64,
    reply: &mut Reply,
)
    ensures takes { KeepsBytes (state S.Store) bytes.now durable.old durable.new reply.new }
    ensures length { reply.new.length ≡ length }
{
    let read = batch_of(alloc, bytes);
    settle_file(durable, read, length, reply);
}

/// Puts a body behind those that were offered to libjumbetai's site, and tells what it came to; at
/// want of memory all are let go.
pub(crate) fn with_bytes(
    alloc: Global,
    offers: Offers,
    bytes: &[u8],
    reply: &mut Reply,
) -> Result<Offers, AllocError>
    ensures ok { IfOk result (λ o. (head : Head) × (batch : List EventValue)
        × ReadsBody bytes.now head batch × IsOfferedBehind head batch offers o
        × (reply.new ≡ record { status = head.status; fresh = reply.old.fresh; repeated = reply.old.repeated; listed = head.count; events = reply.old.events; length = reply.old.length })) }
    ensures err { OnErr result (reply.new ≡ reply.old) }
{
    let body = body_of(alloc, bytes)?;
    let head = body.head;
    let offers = offers.with(body)?;
    reply.status = head.status;
    reply.listed = head.count;
    Ok(offers)
}

/// Keeps the bodies that were offered to libjumbetai's site over files.
pub(crate) fn keep_offers<S: Alter + Drop>(
    durable: &mut DurableSite<S>,
    alloc: Global,
    offers: Offers,
) -> Offers
    ensures { KeepsOffers (state S.Store) offers result durable.old durable.new }
{
    let Offers {
        heads,
        batches,
        each: _,
        status: _,
    } = offers;
    match durable.take_each(batches) {
        Ok(each) => Offers {
            heads,
            batches: List::empty(alloc),
            each,
            status: kept_status(&durable.owed),
        },
        Err(fault) => Offers {
            heads,
            batches: List::empty(alloc),
            each: List::empty(alloc),
            status: table_status(fault),
        },
    }
}
