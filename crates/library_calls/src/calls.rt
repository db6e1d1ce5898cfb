//! What each call does to the site that lies in the room.

ghost use Rattle.std.specs.Prelude.{◌≡◌, ◌≢◌, [], ◌∷◌, codes, drop, length, take, min, IfErr, IfNone, IfOk, IfSome, IsOk};
ghost use Rattle.fault_lines.specs.Lines.{IsFaultText};
ghost use Rattle.event_files.specs.Files.{IsRefusal, SpellAll};
ghost use Rattle.inbox.specs.Sets.{set_of};
ghost use Rattle.library_calls.specs.Calls.{AnswersAt, Asked, Checked, IsDoneOrWant, IsReplyKept, IsLeft, IsPageLine, IsPeer, IsRefusedPeer, IsSummaryLine, IsUnanswered, Lacked, LacksPageAt, Paged, Summed, TellsText, TookBatch, TookBytes, TookNone, Viewed, WithoutLineEnd, batch_line, piece_of, question_number, summary_status};

use attributes::{Batch, Text};
use coverage::{Summary, SummaryFault};
use event_files::{EventReader, Refused, SequentialReader};
use event_json::write_sequenced;
use fault_lines::fault_lines;
use site::Site;
use std::alloc::{AllocError, Global};
use std::hash::RandomState;
use std::io;
use std::random::RandomSource;
use views::Query;

/// What a call answers: a status, and counts.
#[repr(C)]
#[derive(Drop)]
pub struct Reply {
    /// 0: done. Else why not, by a number of `jumbetai.h`. 1: out of memory. 2: the bytes spell no
    /// events. 3: an event has no number. 4: no such question. 5 to 8: the bytes are no summary's
    /// text. 11, 15 to 20: of a file.
    pub status: u32,
    /// How many events were taken that weren't there.
    pub fresh: u64,
    /// How many events came that were there, where all were taken; else 0.
    pub repeated: u64,
    /// How many events the text has, where it is that of a page; else 0.
    pub listed: u64,
    /// How many events the site has.
    pub events: u64,
    /// How many bytes the text of the last answer has.
    pub length: u64,
}

/// How many bytes a piece of an answer's text has at most.
pub const PIECE: usize = 4096;

/// A piece of an answer's text.
#[repr(C)]
#[derive(Drop)]
pub struct Piece {
    /// How many of the bytes are the text's.
    pub length: u64,
    pub bytes: [u8; PIECE],
}

/// The most events of a page.
pub(crate) const MAX_PAGE: u64 = 100;

pub(crate) const DONE: u32 = 0;

pub(crate) const OUT_OF_MEMORY: u32 = 1;

pub(crate) const NO_SUCH_QUESTION: u32 = 4;

/// A text, and how many events it has, where it is that of a page.
#[derive(Drop)]
pub(crate) struct Answered {
    pub(crate) text: Text,
    pub(crate) listed: u64,
}

/// The events that the bytes given to libjumbetai spell, each with its number.
pub(crate) fn batch_of(alloc: Global, bytes: &[u8]) -> Result<Batch, Refused>
    ensures ok { IfOk result (SpellAll (bytes.now ∷ [])) }
    ensures err { IfErr result (IsRefusal (bytes.now ∷ [])) }
{
    match (SequentialReader {}).read(alloc, bytes, false) {
        Ok(batch) => Ok(batch),
        Err(fault) => Err(Refused { file: 0, fault }),
    }
}

/// Takes the bytes' events into libjumbetai's site in memory; so many bytes the text has.
pub(crate) fn take_bytes(
    site: &mut Site,
    alloc: Global,
    bytes: &[u8],
    length: u64,
    reply: &mut Reply,
)
    ensures takes { TookBytes bytes.now site.old site.new reply.new }
    ensures listed { reply.new.listed ≡ 0 }
    ensures events { reply.new.events ≡ Rattle.std.specs.Prelude.length site.new }
    ensures length { reply.new.length ≡ length }
{
    let read = batch_of(alloc, bytes);
    settle(site, read, reply);
    reply.listed = 0;
    reply.events = site.arrived();
    reply.length = length;
}

/// Takes the events that a call of libjumbetai read, or tells why none were.
fn settle(site: &mut Site, read: Result<Batch, Refused>, reply: &mut Reply)
    ensures ok { IfOk read (λ batch. TookBatch batch site.old site.new reply.new) }
    ensures err { IfErr read (λ refused. TookNone refused site.old site.new reply.new) }
{
    reply.fresh = 0;
    reply.repeated = 0;
    match read {
        Ok(mut batch) => match site.take_batch(&mut batch) {
            Ok(counts) => {
                reply.status = DONE;
                reply.fresh = counts.fresh;
                reply.repeated = counts.repeated;
            }
            Err(short) => {
                reply.status = OUT_OF_MEMORY;
                reply.fresh = short.fresh;
            }
        },
        Err(refused) => reply.status = refused.fault.number() as u32,
    }
}

/// Keeps the text that libjumbetai's call made in place of the last one, or tells why there's none.
pub(crate) fn keep(site: &Site, text: &mut Text, made: Result<Answered, u32>, reply: &mut Reply)
    ensures ok { IfOk made (λ m. IsReplyKept m.text m.listed text.new reply.new) }
    ensures err { IfErr made (λ status. IsLeft status text.old text.new reply.new) }
    ensures tells { TellsText site.now text.new reply.new }
{
    reply.fresh = 0;
    reply.repeated = 0;
    reply.listed = 0;
    match made {
        Ok(answered) => {
            reply.status = DONE;
            reply.listed = answered.listed;
            *text = answered.text;
        }
        Err(status) => reply.status = status,
    }
    reply.events = site.arrived();
    reply.length = text.as_str().len() as u64;
}

/// The question of a number that libjumbetai's caller gives, from 1.
pub(crate) fn query_at(number: u32) -> Option<Query>
    ensures some { IfSome result (λ query. number ≡ question_number query) }
    ensures none { IfNone result ((query : Query) → number ≢ question_number query) }
{
    match number {
        1 => Some(Query::Cover),
        2 => Some(Query::Shown),
        3 => Some(Query::Conflicts),
        4 => Some(Query::Latest),
        5 => Some(Query::Kinds),
        6 => Some(Query::Days),
        7 => Some(Query::Gaps),
        _ => None,
    }
}

/// The lines of the answer to the question of a number, or the status of libjumbetai's call.
fn answer_at(site: &Site, number: u32) -> Result<Answered, u32>
    ensures ok { IfOk result (λ m. AnswersAt number (set_of site.now) m.text m.listed) }
    ensures err { IfErr result (IsUnanswered number (set_of site.now)) }
{
    match query_at(number) {
        Some(query) => match site.lines(query) {
            Ok(text) => Ok(Answered { text, listed: 0 }),
            Err(_) => Err(OUT_OF_MEMORY),
        },
        None => Err(NO_SUCH_QUESTION),
    }
}

/// Keeps the text of the answer to a question in the room of libjumbetai's site.
pub(crate) fn ask(site: &Site, text: &mut Text, query: u32, reply: &mut Reply)
    ensures { Asked query (record { site = site.now; text = text.old })
        (record { site = site.now; text = text.new }) reply.new }
{
    let made = answer_at(site, query);
    keep(site, text, made, reply);
}

/// The line of the summary that digests the events of libjumbetai's site.
fn summary_line(site: &mut Site) -> Result<Text, AllocError>
    ensures same { site.new ≡ site.old }
    ensures ok { IfOk result (IsSummaryLine (set_of site.old)) }
{
    let mut line = site.summary()?.to_text()?.into_string();
    line.push_str("\n")?;
    Ok(Text::from_string(line))
}

/// The line of the summary, or the status of libjumbetai's call.
fn summary_of(site: &mut Site) -> Result<Answered, u32>
    ensures same { site.new ≡ site.old }
    ensures ok { IfOk result (λ m. IsSummaryLine (set_of site.old) m.text × (m.listed ≡ 0)) }
    ensures err { IfErr result (λ status. status ≡ 1) }
{
    match summary_line(site) {
        Ok(text) => Ok(Answered { text, listed: 0 }),
        Err(_) => Err(OUT_OF_MEMORY),
    }
}

/// Keeps the line of a site's summary as libjumbetai's text.
pub(crate) fn sum_up(site: &mut Site, text: &mut Text, reply: &mut Reply)
    ensures { Summed (record { site = site.old; text = text.old })
        (record { site = site.new; text = text.new }) reply.new }
{
    let made = summary_of(site);
    keep(site, text, made, reply);
}

/// The bytes given to libjumbetai without one LF at their end, as a summary's line has.
fn without_line_end(bytes: &[u8]) -> &[u8]
    ensures { WithoutLineEnd bytes.now result.now }
{
    match bytes.last() {
        Some(b'\n') => &bytes[..bytes.len() - 1],
        _ => bytes,
    }
}

/// The status of libjumbetai's call that a refusal of a summary's text is.
fn status_of(fault: SummaryFault) -> u32
    ensures { result ≡ summary_status fault }
{
    match fault {
        SummaryFault::OutOfMemory => OUT_OF_MEMORY,
        SummaryFault::NotJson => 5,
        SummaryFault::Shape => 6,
        SummaryFault::Version => 7,
        SummaryFault::NotCanonical => 8,
    }
}

/// The summary that the bytes are the line or the text of, or the status of libjumbetai's call.
pub(crate) fn peer_of(alloc: Global, bytes: &[u8]) -> Result<Summary, u32>
    ensures ok { IfOk result (IsPeer bytes.now) }
    ensures err { IfErr result (IsRefusedPeer bytes.now) }
{
    match Summary::of_text(alloc, without_line_end(bytes)) {
        Ok(peer) => Ok(peer),
        Err(fault) => Err(status_of(fault)),
    }
}

/// A batch as a line, for libjumbetai's text.
pub(crate) fn batch_line(alloc: Global, batch: &Batch) -> Result<Text, AllocError>
    ensures { IfOk result (λ text. text ≡ batch_line batch.now) }
{
    let mut line = write_sequenced(alloc, batch)?.into_string();
    line.push_str("\n")?;
    Ok(Text::from_string(line))
}

/// The line of a page, or want of memory, for a call of libjumbetai.
pub(crate) fn page_line(alloc: Global, page: Result<Batch, AllocError>) -> Result<Answered, u32>
    ensures ok { IfOk result (λ m. IfOk page (λ events. IsPageLine events m.text m.listed)) }
    ensures page { IfOk result (λ m. IfErr page (λ _. ⊥)) }
    ensures err { IfErr result (λ status. status ≡ 1) }
{
    let Ok(events) = page else {
        return Err(OUT_OF_MEMORY);
    };
    match batch_line(alloc, &events) {
        Ok(text) => Ok(Answered {
            text,
            listed: events.len(),
        }),
        Err(_) => Err(OUT_OF_MEMORY),
    }
}

/// The page of what a peer lacks, from a place on, or the status of libjumbetai's call.
fn delta_at(alloc: Global, site: &mut Site, peer: &[u8], from: u64) -> Result<Answered, u32>
    ensures same { site.new ≡ site.old }
    ensures ok { IfOk result (λ m. LacksPageAt peer.now from (set_of site.old) m.text m.listed) }
    ensures err { IfErr result (IsRefusedPeer peer.now) }
{
    let peer = peer_of(alloc, peer)?;
    let page = site.next_delta_page(&peer, from, MAX_PAGE);
    page_line(alloc, page)
}

/// Keeps as libjumbetai's text the page of what a peer lacks of a site, from a place on.
pub(crate) fn show_lacked(
    site: &mut Site,
    alloc: Global,
    text: &mut Text,
    peer: &[u8],
    from: u64,
    reply: &mut Reply,
)
    ensures { Lacked peer.now from (record { site = site.old; text = text.old })
        (record { site = site.new; text = text.new }) reply.new }
{
    let made = delta_at(alloc, site, peer, from);
    keep(site, text, made, reply);
}

/// Keeps as libjumbetai's text the page of a site's events in key order, from a place on.
pub(crate) fn show_page(site: &Site, alloc: Global, text: &mut Text, from: u64, reply: &mut Reply)
    ensures { Paged from (record { site = site.now; text = text.old })
        (record { site = site.now; text = text.new }) reply.new }
{
    let page = site.page(from, MAX_PAGE);
    let made = page_line(alloc, page);
    keep(site, text, made, reply);
}

/// What is wrong with bytes, a line for each event at fault, or the status of libjumbetai's call.
fn faults_in(alloc: Global, bytes: &[u8]) -> Result<Answered, u32>
    ensures ok { IfOk result (λ m. IsFaultText (codes "-") bytes.now m.text × (m.listed ≡ 0)) }
    ensures err { IfErr result (λ status. status ≡ 1) }
{
    let Ok(name) = Text::of(alloc, "-") else {
        return Err(OUT_OF_MEMORY);
    };
    match fault_lines(alloc, &name, bytes) {
        Ok(text) => Ok(Answered { text, listed: 0 }),
        Err(_) => Err(OUT_OF_MEMORY),
    }
}

/// Keeps as libjumbetai's text what is wrong with bytes, a line for each event at fault.
pub(crate) fn check(site: &Site, alloc: Global, text: &mut Text, bytes: &[u8], reply: &mut Reply)
    ensures { Checked bytes.now (record { site = site.now; text = text.old })
        (record { site = site.now; text = text.new }) reply.new }
{
    let made = faults_in(alloc, bytes);
    keep(site, text, made, reply);
}

/// The random bytes that a caller gives.
#[derive(Clone, Copy)]
struct Seed<'a> {
    bytes: &'a [u8],
}

impl RandomSource for Seed<'_> {
    /// Copies the seed's bytes of libjumbetai's caller; where more are wanted, the rest stays.
    fn fill_bytes(&self, buf: &mut [u8]) -> io::Result<()>
        ensures done { IsOk result }
        ensures bytes { take (min (length buf.old) (length self.now.bytes.now)) buf.new
            ≡ take (min (length buf.old) (length self.now.bytes.now)) self.now.bytes.now }
        ensures rest { drop (min (length buf.old) (length self.now.bytes.now)) buf.new
            ≡ drop (min (length buf.old) (length self.now.bytes.now)) buf.old }
    {
        let count = buf.len().min(self.bytes.len());
        buf[..count].copy_from_slice(&self.bytes[..count]);
        Ok(())
    }
}

/// Has libjumbetai's site keep views, by a seed, and answers the status.
fn keep_views(site: &mut Site, seed: &[u8]) -> u32
    ensures same { site.new ≡ site.old }
    ensures status { IsDoneOrWant result }
{
    let Ok(state) = RandomState::new(&Seed { bytes: seed }) else {
        return OUT_OF_MEMORY;
    };
    match site.keep_views(state) {
        Ok(()) => DONE,
        Err(_) => OUT_OF_MEMORY,
    }
}

/// Has libjumbetai's site keep views, by a seed; the text stays.
pub(crate) fn view(site: &mut Site, text: &Text, seed: &[u8], reply: &mut Reply)
    ensures { Viewed (record { site = site.old; text = text.now })
        (record { site = site.new; text = text.now }) reply.new }
{
    reply.status = keep_views(site, seed);
    reply.fresh = 0;
    reply.repeated = 0;
    reply.listed = 0;
    reply.events = site.arrived();
    reply.length = text.as_str().len() as u64;
}

/// Copies a piece of libjumbetai's text into the room's front, and answers how many bytes it has.
pub(crate) fn copied(text: &[u8], piece: u32, room: &mut [u8; PIECE]) -> u64
    ensures length { result ≡ length (piece_of piece text.now) }
    ensures bytes { take result room.new ≡ piece_of piece text.now }
    ensures behind { drop result room.new ≡ drop result room.old }
{
    let from = piece as usize * PIECE;
    if text.len() <= from {
        return 0;
    }
    let rest = &text[from..];
    let count = PIECE.min(rest.len());
    room[..count].copy_from_slice(&rest[..count]);
    count as u64
}
