//! What a service asks of the site that lies in the room, beside the calls of `calls`.

ghost use Rattle.std.specs.Prelude.{◌≡◌, ◌≢◌, ◌≤◌, ◌⊎◌, ◌↔◌, ◌++◌, [], ◌∷◌, IfErr, IfOk, IsTrue, OnErr, OnOk, length, min};
ghost use Rattle.coverage.specs.Digests.{Digests};
ghost use Rattle.coverage.specs.Summary.{Sources};
ghost use Rattle.event_files.specs.Files.{IsRefusal, SpellAll};
ghost use Rattle.inbox.specs.Sets.{set_of};
ghost use Rattle.site.specs.Delta.{delta};
ghost use Rattle.site.specs.Key.{with_key};
ghost use Rattle.site.specs.Mark.{IsMark};
ghost use Rattle.library_calls.specs.Calls.{IsPageLine, IsPeer, IsRefusedPeer};
ghost use Rattle.library_calls.specs.Sets.{Arrived, Found, IsApart, IsFound, IsNamed, IsLag, IsNameOf, IsPartLine, IsSizedPart, LacksPart, PartLacked, Released, TellsLag, TellsName, Tested, WantsFound, bytes_of, part_limit};

use crate::calls::{
    Answered, DONE, MAX_PAGE, OUT_OF_MEMORY, Reply, batch_of, keep, page_line, peer_of,
};
use attributes::{Batch, Text};
use coverage::Summary;
use event_json::write_lent;
use lag::{differing, lacking};
use sha2::{Digest, Sha256};
use site::{Lent, Mark, Site};
use std::alloc::{AllocError, Global};
use views::{Answer, print};

/// The name of a set of events.
#[repr(C)]
#[derive(Drop)]
pub struct Name {
    /// 0: done. 1: out of memory. 11: the site wasn't opened.
    pub status: u32,
    /// The SHA-256 of the text of the set's summary.
    pub bytes: [u8; 32],
}

/// How far a site and a peer are apart.
#[repr(C)]
#[derive(Drop)]
pub struct Lag {
    /// 0: done. 1, 5 to 8: why not, as of a page of what a peer lacks; the rest is 0 then. 11: the
    /// site wasn't opened.
    pub status: u32,
    /// How many numbers the peer has that the site lacks.
    pub lacking: u64,
    /// How many the site has that the peer lacks.
    pub ahead: u64,
    /// How many blocks differ, or are on one side alone; 0 of a summary of version 1.
    pub blocks: u64,
}

/// The most events of a part of what a peer lacks.
const MAX_PART: u64 = 2_000;

/// The most pages of a part.
const PART_PAGES: u64 = 20;

/// Keeps libjumbetai's page of a site's events in the order in which they came, behind so many.
pub(crate) fn show_arrivals(
    site: &Site,
    alloc: Global,
    text: &mut Text,
    after: u64,
    reply: &mut Reply,
)
    ensures { Arrived after (record { site = site.now; text = text.old })
        (record { site = site.now; text = text.new }) reply.new }
{
    let page = site.arrivals_after(after, MAX_PAGE);
    let made = page_line(alloc, page);
    keep(site, text, made, reply);
}

/// Lets the text of the last answer of libjumbetai's site go.
pub(crate) fn release(site: &Site, alloc: Global, text: &mut Text, reply: &mut Reply)
    ensures { Released (record { site = site.now; text = text.old })
        (record { site = site.now; text = text.new }) reply.new }
{
    let empty = Text::from_string(String::new(alloc));
    let made = Ok(Answered {
        text: empty,
        listed: 0,
    });
    keep(site, text, made, reply);
}

/// The name of the set of libjumbetai's site.
fn name_of(site: &mut Site) -> Result<[u8; 32], AllocError>
    ensures same { site.new ≡ site.old }
    ensures ok { IfOk result (IsNameOf (set_of site.old)) }
{
    let text = site.summary()?.to_text()?;
    Ok(Sha256::digest(text.as_str()))
}

/// Tells libjumbetai's caller the name of a site's set.
pub(crate) fn tell_name(site: &mut Site, name: &mut Name)
    ensures same { site.new ≡ site.old }
    ensures tells { TellsName (set_of site.old) name.old name.new }
{
    match name_of(site) {
        Ok(bytes) => {
            name.status = DONE;
            name.bytes = bytes;
        }
        Err(_) => name.status = OUT_OF_MEMORY,
    }
}

/// How far two summaries are apart, for libjumbetai's caller.
fn apart(own: &Summary, peer: &Summary) -> Result<Lag, AllocError>
    ensures { IfOk result (IsApart own.now peer.now) }
{
    Ok(Lag {
        status: DONE,
        lacking: lacking(own, peer)?,
        ahead: lacking(peer, own)?,
        blocks: differing(own, peer)?,
    })
}

/// How far libjumbetai's site and a peer are apart.
fn lag_to(site: &mut Site, peer: &Summary) -> Result<Lag, AllocError>
    ensures same { site.new ≡ site.old }
    ensures ok { IfOk result (λ lag. (own : Sources) × Digests (set_of site.old) own
        × IsApart own peer.now lag) }
{
    let own = site.summary()?;
    apart(&own, peer)
}

/// How far a site and the peer of the bytes are apart, or the status of libjumbetai's call.
fn lag_of(alloc: Global, site: &mut Site, peer: &[u8]) -> Result<Lag, u32>
    ensures same { site.new ≡ site.old }
    ensures ok { IfOk result (IsLag peer.now (set_of site.old)) }
    ensures err { IfErr result (IsRefusedPeer peer.now) }
{
    let peer = peer_of(alloc, peer)?;
    match lag_to(site, &peer) {
        Ok(lag) => Ok(lag),
        Err(_) => Err(OUT_OF_MEMORY),
    }
}

/// A lag in a reply of libjumbetai that tells why there is none.
pub(crate) fn no_lag(status: u32) -> Lag
    ensures { result ≡ record { status = status; lacking = 0; ahead = 0; blocks = 0 } }
{
    Lag {
        status,
        lacking: 0,
        ahead: 0,
        blocks: 0,
    }
}

/// Tells libjumbetai's caller how far a site and the peer of the bytes are apart.
pub(crate) fn compare(site: &mut Site, alloc: Global, peer: &[u8], lag: &mut Lag)
    ensures same { site.new ≡ site.old }
    ensures tells { TellsLag peer.now (set_of site.old) lag.new }
{
    *lag = match lag_of(alloc, site, peer) {
        Ok(found) => found,
        Err(status) => no_lag(status),
    };
}

/// How many events a part that libjumbetai's caller asks for has at most.
fn part_limit(most: u64) -> u64
    ensures limit { result ≡ part_limit most }
    ensures high { result ≤ 2000 }
{
    if most == 0 {
        return MAX_PAGE;
    }
    most.min(MAX_PART)
}

/// Lends a page's events behind those of libjumbetai's part, and answers how many bytes they have.
fn append<'s>(part: &mut Lent<'s>, page: &Lent<'s>) -> Result<u64, AllocError>
    ensures { IfOk result (λ bytes. (part.new ≡ part.old ++ page.now)
        × (bytes ≡ min (bytes_of page.now) u64.MAX)) }
{
    let mut bytes = 0u64;
    for i in 0..page.len() {
        let event = page.at(i);
        part.push(event)?;
        bytes = bytes.saturating_add(event.event().text().len() as u64);
    }
    Ok(bytes)
}

/// Whether so many bytes are as many as libjumbetai's caller asks for, where that isn't 0.
fn is_large(bytes: u64, size: u64) -> bool
    ensures { IsTrue result ↔ ((size ≢ 0) × (size ≤ bytes)) }
{
    size > 0 && bytes >= size
}

/// The part behind a mark of what a peer lacks, for a call: at most so many events, and the page
/// with which their texts have so many bytes, where that isn't 0, is the last. Moves the mark.
fn part_of<'s>(
    alloc: Global,
    site: &'s Site,
    mark: &mut Mark,
    most: u64,
    size: u64,
) -> Result<Lent<'s>, AllocError>
    requires { IsMark site.now mark.old.peer mark.old.own mark.old.among mark.old.from
        mark.old.place }
    ensures part { IfOk result (λ events. IsSizedPart (delta (set_of site.now) mark.old.peer)
        mark.old.from most size events) }
    ensures mark { OnOk result (IsMark site.now mark.new.peer mark.new.own mark.new.among
        mark.new.from mark.new.place) }
{
    let limit = part_limit(most);
    let mut part = Lent::empty(alloc);
    let mut bytes = 0u64;
    for i in 0..PART_PAGES {
        let count = part.len();
        if count >= limit {
            return Ok(part);
        }
        if is_large(bytes, size) {
            return Ok(part);
        }
        let page = site.lend_delta(mark, (limit - count).min(MAX_PAGE))?;
        if page.is_empty() {
            return Ok(part);
        }
        bytes = bytes.saturating_add(append(&mut part, &page)?);
    }
    Ok(part)
}

/// The line of events that libjumbetai's site lends, and how many they are.
fn lent_line(alloc: Global, events: &Lent<'_>) -> Result<Answered, AllocError>
    ensures { IfOk result (λ m. IsPageLine events.now m.text m.listed) }
{
    let mut line = write_lent(alloc, events.as_slice())?.into_string();
    line.push_str("\n")?;
    Ok(Answered {
        text: Text::from_string(line),
        listed: events.len(),
    })
}

/// The line of the part from a place on of what a peer lacks, for a call of libjumbetai.
fn part_line(
    alloc: Global,
    site: &mut Site,
    peer: &Summary,
    from: u64,
    most: u64,
    size: u64,
) -> Result<Answered, AllocError>
    ensures same { site.new ≡ site.old }
    ensures part { IfOk result
        (λ m. IsPartLine (delta (set_of site.old) peer.now) from most size m.text m.listed) }
{
    let Some(mut mark) = site.take_mark(peer, from) else {
        return Err(AllocError);
    };
    let line = lent_line(alloc, &part_of(alloc, site, &mut mark, most, size)?)?;
    site.put_mark(mark);
    Ok(line)
}

/// The line of the part of what a peer lacks, from a place on, or the status of libjumbetai's call.
fn part_at(
    alloc: Global,
    site: &mut Site,
    peer: &[u8],
    from: u64,
    most: u64,
    size: u64,
) -> Result<Answered, u32>
    ensures same { site.new ≡ site.old }
    ensures ok { IfOk result
        (λ m. LacksPart peer.now from most size (set_of site.old) m.text m.listed) }
    ensures err { IfErr result (IsRefusedPeer peer.now) }
{
    let peer = peer_of(alloc, peer)?;
    match part_line(alloc, site, &peer, from, most, size) {
        Ok(line) => Ok(line),
        Err(_) => Err(OUT_OF_MEMORY),
    }
}

/// Keeps as libjumbetai's text the part of what a peer lacks of a site, from a place on.
pub(crate) fn show_part(
    site: &mut Site,
    alloc: Global,
    text: &mut Text,
    peer: &[u8],
    from: u64,
    most: u64,
    size: u64,
    reply: &mut Reply,
)
    ensures { PartLacked peer.now from most size
        (record { site = site.old; text = text.old })
        (record { site = site.new; text = text.new }) reply.new }
{
    let made = part_at(alloc, site, peer, from, most, size);
    keep(site, text, made, reply);
}

/// The copy in memory of libjumbetai's site, with its events; without any where memory runs out.
pub(crate) fn copy_of(site: &Site, alloc: Global) -> Site
    ensures { (result ≡ site.now) ⊎ ((result ≡ []) × (site.now ≢ [])) }
{
    match site.copy() {
        Ok(copy) => copy,
        Err(_) => Site::empty(alloc),
    }
}

/// The events of a source and an id that a caller gives as bytes; none where either is no text.
fn events_of_key(alloc: Global, site: &Site, source: &[u8], id: &[u8]) -> Result<Batch, AllocError>
    ensures ok { IfOk result (IsNamed source.now id.now (set_of site.now)) }
    ensures err { OnErr result (with_key source.now id.now (set_of site.now) ≢ []) }
{
    let Ok(source) = str::from_utf8(source) else {
        return Ok(Batch::empty(alloc));
    };
    let Ok(id) = str::from_utf8(id) else {
        return Ok(Batch::empty(alloc));
    };
    site.get(source, id)
}

/// The lines of the events of a source and an id, or the status of libjumbetai's call.
fn found_at(alloc: Global, site: &Site, source: &[u8], id: &[u8]) -> Result<Answered, u32>
    ensures ok { IfOk result
        (λ m. IsFound source.now id.now (set_of site.now) m.text m.listed) }
    ensures err { IfErr result (WantsFound source.now id.now (set_of site.now)) }
{
    let Ok(events) = events_of_key(alloc, site, source, id) else {
        return Err(OUT_OF_MEMORY);
    };
    let listed = events.len();
    match print(alloc, &Answer::Shown(events)) {
        Ok(text) => Ok(Answered { text, listed }),
        Err(_) => Err(OUT_OF_MEMORY),
    }
}

/// Keeps as libjumbetai's text the lines of the events of a source and an id.
pub(crate) fn find(
    site: &Site,
    alloc: Global,
    text: &mut Text,
    source: &[u8],
    id: &[u8],
    reply: &mut Reply,
)
    ensures { Found source.now id.now (record { site = site.now; text = text.old })
        (record { site = site.now; text = text.new }) reply.new }
{
    let made = found_at(alloc, site, source, id);
    keep(site, text, made, reply);
}

/// Tells libjumbetai's caller what taking bytes would come to, and how many events they spell.
pub fn bytes_test(alloc: Global, bytes: &[u8], reply: &mut Reply)
    ensures { Tested bytes.now reply.new }
{
    reply.fresh = 0;
    reply.repeated = 0;
    reply.listed = 0;
    reply.events = 0;
    reply.length = 0;
    match batch_of(alloc, bytes) {
        Ok(batch) => {
            reply.status = DONE;
            reply.listed = batch.len();
        }
        Err(refused) => reply.status = refused.fault.number() as u32,
    }
}
