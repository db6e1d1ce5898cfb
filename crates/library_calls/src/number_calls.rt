//! What each call does to the numberer over a file that lies in the room.

ghost use Rattle.std.specs.Prelude.{◌≡◌, [], length, IfErr, IfOk, MatchResult, Result};
ghost use Rattle.event_json.specs.Reading.{Reads};
ghost use Rattle.durable_site.specs.Files.{Closes};
ghost use Rattle.library_calls.specs.declared.calls.Answered.{Answered as Made};
ghost use Rattle.library_calls.specs.declared.number_calls.Unnumbered.{Unnumbered as Why};
ghost use Rattle.library_calls.specs.Calls.{IsPageLine};
ghost use Rattle.library_calls.specs.Numbers.{HasReadNumbers, IsNoEvents, KeepsMade, LetsGoNumbers, Numbered, Numbers, NumbersBytes, OpenedNumbers, ServesNumbers, WantsText, index_at, number_status};

use crate::calls::{Answered, DONE, OUT_OF_MEMORY, Piece, Reply, copied, page_line};
use crate::file_calls::{NOT_OPEN, open_status, tell_nothing};
use crate::numbers_held::{FileNumberer, NumbersHeld};
use attributes::{Batch, Events, Text};
use durable_site::{FileFrom, GivenFiles, Unknown, close, connect};
use event_json::{ReadFault, read_events};
use number_table::{NotOpened, Numberer, NumbererFault};
use sqlite::Alter;
use sqlite_store::FileStore;
use std::alloc::Global;

const NO_EVENTS: u32 = 2;

const HAS_SEQUENCE: u32 = 30;

const TOO_LARGE: u32 = 31;

/// The status of libjumbetai's call that a refusal of a numberer is.
fn number_status(fault: NumbererFault) -> u32
    ensures { result ≡ number_status fault }
{
    match fault {
        NumbererFault::OutOfMemory => OUT_OF_MEMORY,
        NumbererFault::HasSequence { .. } => HAS_SEQUENCE,
        NumbererFault::TooLarge { .. } => TOO_LARGE,
        NumbererFault::Full { .. } => 24,
        NumbererFault::Store => 18,
        NumbererFault::Foreign => 19,
    }
}

/// Why libjumbetai's numberer answers bytes with no text.
#[derive(Clone, Copy)]
pub(crate) struct Unnumbered {
    /// The status of the call.
    pub(crate) status: u32,
    /// The index of the event that can't be numbered, from 0; else 0.
    pub(crate) index: u64,
}

/// The index of the event that a numberer refuses, else 0.
fn index_at(fault: NumbererFault) -> u64
    ensures { result ≡ index_at fault }
{
    match fault {
        NumbererFault::HasSequence { index }
        | NumbererFault::TooLarge { index }
        | NumbererFault::Full { index } => index,
        _ => 0,
    }
}

/// The status of libjumbetai's refused opening, whose files are closed as they are.
fn refused_status(refused: NotOpened<FileStore<FileFrom<Unknown>>>) -> u32
    ensures status { result ≡ number_status refused.fault }
    ensures closes { Closes refused.conn }
{
    let NotOpened { conn, fault } = refused;
    close(conn);
    number_status(fault)
}

/// The numberer in the caller's files, made where there is none, or the status of the call.
fn served(alloc: Global, given: GivenFiles, base: u64) -> Result<FileNumberer, u32>
    ensures { ServesNumbers base result }
{
    let conn = match connect(alloc, given, Unknown) {
        Ok(conn) => conn,
        Err(fault) => return Err(open_status(fault)),
    };
    match Numberer::open(alloc, conn, base) {
        Ok(numberer) => Ok(numberer),
        Err(refused) => Err(refused_status(refused)),
    }
}

/// Opens a numberer over the files that libjumbetai's caller gave.
pub fn numbers_open(alloc: Global, given: GivenFiles, base: u64, reply: &mut Reply) -> NumbersHeld
    ensures { OpenedNumbers base result reply.new }
{
    let text = Text::from_string(String::new(alloc));
    match served(alloc, given, base) {
        Ok(numberer) => {
            tell_nothing(DONE, 0, reply);
            reply.events = numberer.table.rows();
            NumbersHeld {
                numberer: Some(numberer),
                text,
                alloc,
            }
        }
        Err(status) => {
            tell_nothing(status, 0, reply);
            NumbersHeld {
                numberer: None,
                text,
                alloc,
            }
        }
    }
}

/// The events that the bytes spell, or the status of libjumbetai's call to number them.
fn events_in(alloc: Global, bytes: &[u8]) -> Result<Events, u32>
    ensures ok { IfOk result (Reads bytes.now) }
    ensures err { IfErr result (IsNoEvents bytes.now) }
{
    match read_events(alloc, bytes) {
        Ok(events) => Ok(events),
        Err(ReadFault::OutOfMemory) => Err(OUT_OF_MEMORY),
        Err(_) => Err(NO_EVENTS),
    }
}

/// The line of events with their numbers, or want of memory as libjumbetai's caller is told it.
fn numbered_line(alloc: Global, batch: Batch) -> Result<Answered, Unnumbered>
    ensures { MatchResult result (λ m. IsPageLine batch m.text m.listed) WantsText }
{
    match page_line(alloc, Ok(batch)) {
        Ok(line) => Ok(line),
        Err(status) => Err(Unnumbered { status, index: 0 }),
    }
}

/// Has libjumbetai's numberer number events: the line of them with their numbers, or why not.
fn number_line<S: Alter + Drop>(
    numberer: &mut Numberer<S>,
    alloc: Global,
    events: &Events,
) -> Result<Answered, Unnumbered>
    ensures { Numbers S.Store events.now numberer.old numberer.new result }
{
    match numberer.number(events) {
        Ok(batch) => numbered_line(alloc, batch),
        Err(fault) => Err(Unnumbered {
            status: number_status(fault),
            index: index_at(fault),
        }),
    }
}

/// Has a numberer number the bytes' events: their line, or why libjumbetai's caller gets none.
fn number_bytes<S: Alter + Drop>(
    numberer: &mut Numberer<S>,
    alloc: Global,
    bytes: &[u8],
) -> Result<Answered, Unnumbered>
    ensures { NumbersBytes S.Store bytes.now numberer.old numberer.new result }
{
    match events_in(alloc, bytes) {
        Ok(events) => number_line(numberer, alloc, &events),
        Err(status) => Err(Unnumbered { status, index: 0 }),
    }
}

/// Keeps the text that was made in place of the numberer's last one, or tells the caller why not.
fn keep_text(made: Result<Answered, Unnumbered>, text: &mut Text, reply: &mut Reply)
    ensures keeps { KeepsMade made text.old text.new reply.new }
    ensures length { reply.new.length ≡ length text.new }
{
    tell_nothing(DONE, 0, reply);
    match made {
        Ok(answered) => {
            reply.listed = answered.listed;
            *text = answered.text;
        }
        Err(why) => {
            reply.status = why.status;
            reply.listed = why.index;
        }
    }
    reply.length = text.as_str().len() as u64;
}

/// Has libjumbetai's numberer number the events that bytes spell, keeps their line, and tells how
/// many it numbered.
fn number_and_tell<S: Alter + Drop>(
    numberer: &mut Numberer<S>,
    alloc: Global,
    text: &mut Text,
    bytes: &[u8],
    reply: &mut Reply,
)
    ensures did { (made : Result Made Why)
        × NumbersBytes S.Store bytes.now numberer.old numberer.new made
        × KeepsMade made text.old text.new reply.new }
    ensures events { reply.new.events ≡ numberer.new.table.rows }
    ensures length { reply.new.length ≡ length text.new }
{
    let made = number_bytes(numberer, alloc, bytes);
    keep_text(made, text, reply);
    reply.events = numberer.table.rows();
}

/// Numbers the events that the bytes spell, by the numberer that lies in the room.
pub fn numbers_number(mut held: NumbersHeld, bytes: &[u8], reply: &mut Reply) -> NumbersHeld
    ensures { Numbered bytes.now held result reply.new }
{
    let Some(numberer) = &mut held.numberer else {
        tell_nothing(NOT_OPEN, held.text.as_str().len() as u64, reply);
        return held;
    };
    number_and_tell(numberer, held.alloc, &mut held.text, bytes, reply);
    held
}

/// Copies a piece of libjumbetai's numbered text, counted from 0; one behind its end has no bytes.
pub fn numbers_read(held: NumbersHeld, piece: u32, out: &mut Piece) -> NumbersHeld
    ensures { HasReadNumbers piece held result out.old out.new }
{
    out.length = copied(held.text.as_str().as_bytes(), piece, &mut out.bytes);
    held
}

/// Copies the log into the file, and lets libjumbetai's numberer go.
pub fn numbers_close(held: NumbersHeld)
    ensures { LetsGoNumbers held }
{
    let NumbersHeld {
        numberer,
        text: _,
        alloc: _,
    } = held;
    if let Some(numberer) = numberer {
        close(numberer.table.into_connection());
    }
}
