//! What each call does to the site that lies in a caller's room, in memory or over files.

ghost use Rattle.std.specs.Prelude.{◌≡◌, ◌≢◌, ◌⊎◌, []};
ghost use Rattle.library_calls.specs.Rooms.{Answered, RoomCompared, RoomCopied, RoomFound, HasAnswer, HasReadPiece, IsEmpty, KeptOffers, LetsGo, RoomNamed, Offered, Opened, RoomPartLacked, RoomSplit, RoomTold, RoomTook, events_of};
ghost use Rattle.library_calls.specs.Parts.{Combined};
ghost use Rattle.library_calls.specs.Sets.{PartLacked, TellsLag, TellsName};
ghost use Rattle.inbox.specs.Sets.{set_of};

use crate::calls::{
    DONE, OUT_OF_MEMORY, Piece, Reply, ask, check, copied, show_lacked, show_page, sum_up,
    take_bytes, view,
};
use crate::file_calls::{NOT_OPEN, keep_offers, made, take_events, tell_nothing, with_bytes};
use crate::held::{Held, HeldSite};
use crate::offers::Offers;
use crate::part_calls::{CombineReply, answer_number, show_split};
use crate::set_calls::{
    Lag, Name, compare, copy_of, find, no_lag, release, show_arrivals, show_part, tell_name,
};
use attributes::Text;
use durable_site::{DurableSite, GivenFiles, close};
use site::Site;
use sqlite::Alter;
use std::alloc::Global;

/// The site of libjumbetai in memory, without events, and the empty text. It takes no memory.
pub fn site_open(alloc: Global) -> Held
    ensures { IsEmpty result }
{
    Held::of(alloc, HeldSite::Memory(Site::empty(alloc)))
}

/// Opens a site over the files that libjumbetai's caller gave.
pub fn site_open_files(alloc: Global, given: GivenFiles, reply: &mut Reply) -> Held
    ensures { Opened result reply.new }
{
    match made(alloc, given) {
        Ok(durable) => {
            tell_nothing(DONE, 0, reply);
            reply.events = durable.site.arrived();
            Held::of(alloc, HeldSite::File(durable))
        }
        Err(status) => {
            tell_nothing(status, 0, reply);
            Held::of(alloc, HeldSite::Closed)
        }
    }
}

/// Takes the events that the bytes spell into the site that lies in the room.
pub fn site_take(mut held: Held, bytes: &[u8], reply: &mut Reply) -> Held
    ensures { RoomTook bytes.now held result reply.new }
{
    held.offers.let_go(held.alloc);
    let length = held.text.as_str().len() as u64;
    match &mut held.site {
        HeldSite::Memory(site) => take_bytes(site, held.alloc, bytes, length, reply),
        HeldSite::File(durable) => take_events(durable, held.alloc, bytes, length, reply),
        HeldSite::Closed => tell_nothing(NOT_OPEN, length, reply),
    }
    held
}

/// Answers libjumbetai's caller on a site, by a number: 1 to 7 a question, 8 its summary, 9 what a
/// peer lacks, 10 a page, 11 what is wrong with bytes, 12 that it keep views, 13 a page of
/// arrivals, 14 that it let the text of its last answer go.
fn answer(
    site: &mut Site,
    alloc: Global,
    text: &mut Text,
    what: u32,
    bytes: &[u8],
    from: u64,
    reply: &mut Reply,
)
    ensures { Answered what bytes.now from
        (record { site = site.old; text = text.old })
        (record { site = site.new; text = text.new }) reply.new }
{
    match what {
        8 => sum_up(site, text, reply),
        9 => show_lacked(site, alloc, text, bytes, from, reply),
        10 => show_page(site, alloc, text, from, reply),
        11 => check(site, alloc, text, bytes, reply),
        12 => view(site, text, bytes, reply),
        13 => show_arrivals(site, alloc, text, from, reply),
        14 => release(site, alloc, text, reply),
        _ => ask(site, text, what, reply),
    }
}

/// Answers what is asked of a site over files, as [`answer`] does; the table stays.
fn tell_file<S: Alter + Drop>(
    durable: &mut DurableSite<S>,
    alloc: Global,
    text: &mut Text,
    what: u32,
    bytes: &[u8],
    from: u64,
    reply: &mut Reply,
)
    ensures table { durable.new.table ≡ durable.old.table }
    ensures owed { durable.new.owed ≡ durable.old.owed }
    ensures tells { Answered what bytes.now from
        (record { site = durable.old.site; text = text.old })
        (record { site = durable.new.site; text = text.new }) reply.new }
{
    answer(&mut durable.site, alloc, text, what, bytes, from, reply);
}

/// Answers what libjumbetai's caller asks of the site by a number, as [`answer`] does.
pub fn site_tell(mut held: Held, what: u32, bytes: &[u8], from: u64, reply: &mut Reply) -> Held
    ensures { RoomTold what bytes.now from held result reply.new }
{
    held.offers.let_go(held.alloc);
    let text = &mut held.text;
    match &mut held.site {
        HeldSite::Memory(site) => answer(site, held.alloc, text, what, bytes, from, reply),
        HeldSite::File(durable) => tell_file(durable, held.alloc, text, what, bytes, from, reply),
        HeldSite::Closed => tell_nothing(NOT_OPEN, text.as_str().len() as u64, reply),
    }
    held
}

/// Keeps the part of what a peer lacks of a site over files; the table stays.
fn show_file_part<S: Alter + Drop>(
    durable: &mut DurableSite<S>,
    alloc: Global,
    text: &mut Text,
    peer: &[u8],
    from: u64,
    most: u64,
    size: u64,
    reply: &mut Reply,
)
    ensures table { durable.new.table ≡ durable.old.table }
    ensures owed { durable.new.owed ≡ durable.old.owed }
    ensures shows { PartLacked peer.now from most size
        (record { site = durable.old.site; text = text.old })
        (record { site = durable.new.site; text = text.new }) reply.new }
{
    show_part(
        &mut durable.site,
        alloc,
        text,
        peer,
        from,
        most,
        size,
        reply,
    );
}

/// Keeps as libjumbetai's text a part of what a peer lacks of the site, from a place on.
pub fn site_part(
    mut held: Held,
    peer: &[u8],
    from: u64,
    most: u64,
    size: u64,
    reply: &mut Reply,
) -> Held
    ensures { RoomPartLacked peer.now from most size held result reply.new }
{
    held.offers.let_go(held.alloc);
    let alloc = held.alloc;
    let text = &mut held.text;
    match &mut held.site {
        HeldSite::Memory(site) => show_part(site, alloc, text, peer, from, most, size, reply),
        HeldSite::File(durable) => {
            show_file_part(durable, alloc, text, peer, from, most, size, reply)
        }
        HeldSite::Closed => tell_nothing(NOT_OPEN, text.as_str().len() as u64, reply),
    }
    held
}

/// Keeps as libjumbetai's text the lines of the site's events of a source and an id.
pub fn site_get(mut held: Held, source: &[u8], id: &[u8], reply: &mut Reply) -> Held
    ensures { RoomFound source.now id.now held result reply.new }
{
    held.offers.let_go(held.alloc);
    let text = &mut held.text;
    match &mut held.site {
        HeldSite::Memory(site) => find(site, held.alloc, text, source, id, reply),
        HeldSite::File(durable) => find(&durable.site, held.alloc, text, source, id, reply),
        HeldSite::Closed => tell_nothing(NOT_OPEN, text.as_str().len() as u64, reply),
    }
    held
}

/// Tells the name of the set of a site over files; the table stays.
fn tell_file_name<S: Alter + Drop>(durable: &mut DurableSite<S>, name: &mut Name)
    ensures table { durable.new.table ≡ durable.old.table }
    ensures owed { durable.new.owed ≡ durable.old.owed }
    ensures site { durable.new.site ≡ durable.old.site }
    ensures tells { TellsName (set_of durable.old.site) name.old name.new }
{
    tell_name(&mut durable.site, name);
}

/// Tells libjumbetai's caller the name of the set of the site that lies in the room.
pub fn site_name(mut held: Held, name: &mut Name) -> Held
    ensures { RoomNamed held result name.old name.new }
{
    held.offers.let_go(held.alloc);
    match &mut held.site {
        HeldSite::Memory(site) => tell_name(site, name),
        HeldSite::File(durable) => tell_file_name(durable, name),
        HeldSite::Closed => name.status = NOT_OPEN,
    }
    held
}

/// Tells how far a site over files and the peer of the bytes are apart; the table stays.
fn compare_file<S: Alter + Drop>(
    durable: &mut DurableSite<S>,
    alloc: Global,
    peer: &[u8],
    lag: &mut Lag,
)
    ensures table { durable.new.table ≡ durable.old.table }
    ensures owed { durable.new.owed ≡ durable.old.owed }
    ensures site { durable.new.site ≡ durable.old.site }
    ensures tells { TellsLag peer.now (set_of durable.old.site) lag.new }
{
    compare(&mut durable.site, alloc, peer, lag);
}

/// Tells how far the site that lies in the room and the peer of the bytes are apart.
pub fn site_compare(mut held: Held, peer: &[u8], lag: &mut Lag) -> Held
    ensures { RoomCompared peer.now held result lag.new }
{
    held.offers.let_go(held.alloc);
    match &mut held.site {
        HeldSite::Memory(site) => compare(site, held.alloc, peer, lag),
        HeldSite::File(durable) => compare_file(durable, held.alloc, peer, lag),
        HeldSite::Closed => *lag = no_lag(NOT_OPEN),
    }
    held
}

/// The copy in memory of a site in a room; without events where memory runs out, or none is open.
fn copy_in(site: &HeldSite, alloc: Global) -> Site
    ensures { (result ≡ events_of site.now) ⊎ ((result ≡ []) × (events_of site.now ≢ [])) }
{
    match site {
        HeldSite::Memory(site) => copy_of(site, alloc),
        HeldSite::File(durable) => copy_of(&durable.site, alloc),
        HeldSite::Closed => Site::empty(alloc),
    }
}

/// The same copy of the site that lies in a room, with no text.
pub fn site_copy(held: &mut Held) -> Held
    ensures { RoomCopied held.old held.new result }
{
    let copy = copy_in(&held.site, held.alloc);
    Held::of(held.alloc, HeldSite::Memory(copy))
}

/// Keeps as libjumbetai's text the lines of the parts of the events that the bytes spell.
pub fn site_split(mut held: Held, bytes: &[u8], count: u64, reply: &mut Reply) -> Held
    ensures { RoomSplit bytes.now count held result reply.new }
{
    held.offers.let_go(held.alloc);
    let text = &mut held.text;
    match &held.site {
        HeldSite::Memory(site) => show_split(site, held.alloc, text, bytes, count, reply),
        HeldSite::File(durable) => show_split(&durable.site, held.alloc, text, bytes, count, reply),
        HeldSite::Closed => tell_nothing(NOT_OPEN, text.as_str().len() as u64, reply),
    }
    held
}

/// Answers the question of a number over the whole, from texts that lie in bytes one behind the
/// other, by how many bytes each has: so many answers of the parts, and behind them their covers.
/// Number 8 is the summary, of version 2, from so many summaries of the parts.
pub fn site_combine(
    mut held: Held,
    query: u32,
    answers: u64,
    bytes: &[u8],
    lengths: &[u64],
    reply: &mut CombineReply,
) -> Held
    ensures { Combined query
        (record { answers = answers; bytes = bytes.now; lengths = lengths.now })
        held result reply.new }
{
    held.offers.let_go(held.alloc);
    let room = &mut held;
    answer_number(
        room.alloc,
        &mut room.text,
        query,
        answers,
        bytes,
        lengths,
        reply,
    );
    reply.length = held.text.as_str().len() as u64;
    held
}

/// Offers a body to libjumbetai's site, which stands behind those that were offered.
pub fn site_offer(held: Held, bytes: &[u8], reply: &mut Reply) -> Held
    ensures { Offered bytes.now held result reply.new }
{
    let Held {
        site,
        text,
        offers,
        alloc,
    } = held;
    tell_nothing(OUT_OF_MEMORY, text.as_str().len() as u64, reply);
    let offers = match with_bytes(alloc, offers, bytes, reply) {
        Ok(offers) => offers,
        Err(_) => Offers::none(alloc),
    };
    Held {
        site,
        text,
        offers,
        alloc,
    }
}

/// Keeps the bodies that were offered to the site over files, in one transaction; one that has no
/// files is left as it is.
pub fn site_keep(held: Held, reply: &mut Reply) -> Held
    ensures { KeptOffers held result reply.new }
{
    let Held {
        site,
        text,
        offers,
        alloc,
    } = held;
    let length = text.as_str().len() as u64;
    match site {
        HeldSite::File(mut durable) => {
            let offers = keep_offers(&mut durable, alloc, offers);
            tell_nothing(offers.status, length, reply);
            reply.events = durable.site.arrived();
            Held {
                site: HeldSite::File(durable),
                text,
                offers,
                alloc,
            }
        }
        site => {
            tell_nothing(NOT_OPEN, length, reply);
            Held {
                site,
                text,
                offers: Offers::none(alloc),
                alloc,
            }
        }
    }
}

/// Tells libjumbetai's caller what became of the body at a place of those that were offered.
pub fn site_answer(held: Held, place: u64, reply: &mut Reply) -> Held
    ensures { HasAnswer place held result reply.new }
{
    held.offers.answer(place, reply);
    held
}

/// Copies a piece of libjumbetai's text, counted from 0; a piece behind its end has no bytes.
pub fn site_read(held: Held, piece: u32, out: &mut Piece) -> Held
    ensures { HasReadPiece piece held result out.old out.new }
{
    out.length = copied(held.text.as_str().as_bytes(), piece, &mut out.bytes);
    held
}

/// Lets libjumbetai's site go; of one over files the log is copied into the file before.
pub fn site_close(held: Held)
    ensures { LetsGo held.site }
{
    let Held {
        site,
        text: _,
        offers: _,
        alloc: _,
    } = held;
    if let HeldSite::File(durable) = site {
        let DurableSite {
            table,
            site: _,
            owed: _,
            alloc: _,
        } = durable;
        close(table.into_connection());
    }
}
