//! A site inside another program: what a caller in C holds is room for one site, which it gives.
#![tactic(auto)]

ghost use Rattle.std.specs.Borrow.{full_share, sem};
ghost use Rattle.std.specs.Mem.{type_size};
ghost use Rattle.std.specs.Prelude.{◌≡◌};
ghost use Rattle.std.specs.Ptr.{lies_at, room_at};
ghost use Rattle.library_calls.specs.Numbers.{HasReadNumbers, LetsGoNumbers, Numbered, OpenedNumbers};
ghost use Rattle.library_calls.specs.Outboxes.{HasReadOutbox, LetsGoOutbox, OpenedOutbox, OrderedOutbox, ShownOutbox};
ghost use Rattle.library_calls.specs.Parts.{Combined, TellsSourcePart};
ghost use Rattle.library_calls.specs.Rooms.{HasAnswer, HasReadPiece, IsEmpty, KeptOffers, LetsGo, Offered, Opened, RoomCompared, RoomCopied, RoomFound, RoomNamed, RoomPartLacked, RoomSplit, RoomTold, RoomTook};
ghost use Rattle.library_calls.specs.Sets.{Tested};
ghost use Rattle.library_calls.specs.contracts.held.Held.{the_row};
ghost use Rattle.library_calls.specs.contracts.numbers_held.NumbersHeld.{the_row as numbers_row};
ghost use Rattle.library_calls.specs.contracts.outbox_held.OutboxHeld.{the_row as outbox_row};
ghost use Rattle.durable_site.specs.contracts.file.GivenFiles.{the_row as given_row};
ghost use base.Fml.{fsep};

mod calls;

use durable_site::GivenFiles;
use library_calls::{
    CombineReply, Held, Lag, Name, NumbersHeld, OutboxHeld, OutboxReply, Piece, Reply, bytes_test,
    source_part,
};
use std::alloc::Global;

/// Tells C how many bytes of room a site needs.
#[unsafe(no_mangle)]
pub extern "C" fn jumbetai_site_size() -> usize
    ensures { result ≡ type_size the_row }
{
    size_of::<Held>()
}

/// Makes a site in memory without events in the room that C gives.
#[unsafe(no_mangle)]
pub unsafe extern "C" fn jumbetai_site_open(alloc: Global, at: *mut u8)
    requires* { sem 𝓛 (room_at the_row at) }
    ensures* { ∃ₛ λ made. sem 𝓛 (lies_at the_row full_share at made) ∗ ⌜ IsEmpty made ⌝ }
{
    std::ptr::write(at as *mut Held, calls::site_open(alloc));
}

/// Opens a site over the files of a database, which are the library's from then on; where it is
/// refused, a site that isn't open lies in the room.
#[unsafe(no_mangle)]
pub unsafe extern "C" fn jumbetai_site_open_files(
    alloc: Global,
    at: *mut u8,
    given: *mut u8,
    reply: &mut Reply,
)
    ghost files: { GivenFiles }
    requires* { sem 𝓛 (fsep (room_at the_row at) (lies_at given_row full_share given files)) }
    ensures* { ∃ₛ λ made. sem 𝓛 (fsep (lies_at the_row full_share at made)
        (room_at given_row given)) ∗ ⌜ Opened made reply.new ⌝ }
{
    let files = std::ptr::read(given as *mut GivenFiles);
    std::ptr::write(at as *mut Held, calls::site_open_files(alloc, files, reply));
}

/// Takes the events that the bytes of the C caller spell, one event or a batch; of a site over files
/// they are kept in the file and synced, and then counted.
#[unsafe(no_mangle)]
pub unsafe extern "C" fn jumbetai_site_take(at: *mut u8, bytes: &[u8], reply: &mut Reply)
    ghost held: { Held }
    requires* { sem 𝓛 (lies_at the_row full_share at held) }
    ensures* { ∃ₛ λ kept. sem 𝓛 (lies_at the_row full_share at kept)
        ∗ ⌜ RoomTook bytes.now held kept reply.new ⌝ }
{
    let to = at as *mut Held;
    std::ptr::write(to, calls::site_take(std::ptr::read(to), bytes, reply));
}

/// Offers a body of events, which stands behind those that were offered until they are kept.
/// Nothing is taken. Any other call than these three lets go what was offered.
#[unsafe(no_mangle)]
pub unsafe extern "C" fn jumbetai_site_offer(at: *mut u8, bytes: &[u8], reply: &mut Reply)
    ghost held: { Held }
    requires* { sem 𝓛 (lies_at the_row full_share at held) }
    ensures* { ∃ₛ λ kept. sem 𝓛 (lies_at the_row full_share at kept)
        ∗ ⌜ Offered bytes.now held kept reply.new ⌝ }
{
    let to = at as *mut Held;
    std::ptr::write(to, calls::site_offer(std::ptr::read(to), bytes, reply));
}

/// Keeps the bodies that were offered, one behind the other, in one transaction that is synced.
#[unsafe(no_mangle)]
pub unsafe extern "C" fn jumbetai_site_keep(at: *mut u8, reply: &mut Reply)
    ghost held: { Held }
    requires* { sem 𝓛 (lies_at the_row full_share at held) }
    ensures* { ∃ₛ λ kept. sem 𝓛 (lies_at the_row full_share at kept)
        ∗ ⌜ KeptOffers held kept reply.new ⌝ }
{
    let to = at as *mut Held;
    std::ptr::write(to, calls::site_keep(std::ptr::read(to), reply));
}

/// Tells C what became of the body at a place of those that were kept.
#[unsafe(no_mangle)]
pub unsafe extern "C" fn jumbetai_site_answer(at: *mut u8, place: u64, reply: &mut Reply)
    ghost held: { Held }
    requires* { sem 𝓛 (lies_at the_row full_share at held) }
    ensures* { ∃ₛ λ kept. sem 𝓛 (lies_at the_row full_share at kept)
        ∗ ⌜ HasAnswer place held kept reply.new ⌝ }
{
    let to = at as *mut Held;
    std::ptr::write(to, calls::site_answer(std::ptr::read(to), place, reply));
}

/// Tells what is asked of the site by a number: 1 to 7 a question, 8 the summary, 9 what the peer
/// of this summary lacks, 10 a page, 11 what is wrong with bytes, 12 that views be kept, by random
/// bytes, 13 a page of arrivals, 14 that the text be let go. The text stays in the site until it is
/// asked again.
#[unsafe(no_mangle)]
pub unsafe extern "C" fn jumbetai_site_tell(
    at: *mut u8,
    what: u32,
    bytes: &[u8],
    from: u64,
    reply: &mut Reply,
)
    ghost held: { Held }
    requires* { sem 𝓛 (lies_at the_row full_share at held) }
    ensures* { ∃ₛ λ kept. sem 𝓛 (lies_at the_row full_share at kept)
        ∗ ⌜ RoomTold what bytes.now from held kept reply.new ⌝ }
{
    let to = at as *mut Held;
    std::ptr::write(
        to,
        calls::site_tell(std::ptr::read(to), what, bytes, from, reply),
    );
}

/// Asks for the part from a place on of what a peer lacks by its summary, as a batch: at most so
/// many events, 2,000 or fewer, or a page where `most` is 0; where `size` isn't 0, the page with
/// which their texts have so many bytes is the last. Its text stays in the site as an answer's
/// does.
#[unsafe(no_mangle)]
pub unsafe extern "C" fn jumbetai_site_part(
    at: *mut u8,
    peer: &[u8],
    from: u64,
    most: u64,
    size: u64,
    reply: &mut Reply,
)
    ghost held: { Held }
    requires* { sem 𝓛 (lies_at the_row full_share at held) }
    ensures* { ∃ₛ λ kept. sem 𝓛 (lies_at the_row full_share at kept)
        ∗ ⌜ RoomPartLacked peer.now from most size held kept reply.new ⌝ }
{
    let to = at as *mut Held;
    std::ptr::write(
        to,
        calls::site_part(std::ptr::read(to), peer, from, most, size, reply),
    );
}

/// Asks for the events of a source and an id, a line each, the shown one first; its text stays in
/// the site as an answer's does.
#[unsafe(no_mangle)]
pub unsafe extern "C" fn jumbetai_site_get(at: *mut u8, source: &[u8], id: &[u8], reply: &mut Reply)
    ghost held: { Held }
    requires* { sem 𝓛 (lies_at the_row full_share at held) }
    ensures* { ∃ₛ λ kept. sem 𝓛 (lies_at the_row full_share at kept)
        ∗ ⌜ RoomFound source.now id.now held kept reply.new ⌝ }
{
    let to = at as *mut Held;
    std::ptr::write(to, calls::site_get(std::ptr::read(to), source, id, reply));
}

/// Tells C the name of the site's set, by which two sites are the same.
#[unsafe(no_mangle)]
pub unsafe extern "C" fn jumbetai_site_name(at: *mut u8, name: &mut Name)
    ghost held: { Held }
    requires* { sem 𝓛 (lies_at the_row full_share at held) }
    ensures* { ∃ₛ λ kept. sem 𝓛 (lies_at the_row full_share at kept)
        ∗ ⌜ RoomNamed held kept name.old name.new ⌝ }
{
    let to = at as *mut Held;
    std::ptr::write(to, calls::site_name(std::ptr::read(to), name));
}

/// Tells C how far the site and a peer are apart, by its summary.
#[unsafe(no_mangle)]
pub unsafe extern "C" fn jumbetai_site_compare(at: *mut u8, peer: &[u8], lag: &mut Lag)
    ghost held: { Held }
    requires* { sem 𝓛 (lies_at the_row full_share at held) }
    ensures* { ∃ₛ λ kept. sem 𝓛 (lies_at the_row full_share at kept)
        ∗ ⌜ RoomCompared peer.now held kept lag.new ⌝ }
{
    let to = at as *mut Held;
    std::ptr::write(to, calls::site_compare(std::ptr::read(to), peer, lag));
}

/// Makes a copy in memory of the site in another room of C's; one without events where memory runs
/// out.
#[unsafe(no_mangle)]
pub unsafe extern "C" fn jumbetai_site_copy(at: *mut u8, to: *mut u8)
    ghost held: { Held }
    requires* { sem 𝓛 (fsep (lies_at the_row full_share at held) (room_at the_row to)) }
    ensures* { ∃ₛ λ kept. ∃ₛ λ copy. sem 𝓛 (fsep (lies_at the_row full_share at kept)
        (lies_at the_row full_share to copy)) ∗ ⌜ RoomCopied held kept copy ⌝ }
{
    let copy = calls::site_copy(&mut *(at as *mut Held));
    std::ptr::write(to as *mut Held, copy);
}

/// Parts the events that the bytes spell by their sources, a line for each of so many parts; its
/// text stays in the site as an answer's does.
#[unsafe(no_mangle)]
pub unsafe extern "C" fn jumbetai_site_split(
    at: *mut u8,
    bytes: &[u8],
    parts: u64,
    reply: &mut Reply,
)
    ghost held: { Held }
    requires* { sem 𝓛 (lies_at the_row full_share at held) }
    ensures* { ∃ₛ λ kept. sem 𝓛 (lies_at the_row full_share at kept)
        ∗ ⌜ RoomSplit bytes.now parts held kept reply.new ⌝ }
{
    let to = at as *mut Held;
    std::ptr::write(
        to,
        calls::site_split(std::ptr::read(to), bytes, parts, reply),
    );
}

/// Asks a question about the whole of parts, by the texts of so many of their answers, and behind
/// them of their covers, which lie one behind the other in the bytes; 8 asks for the summary, by so
/// many summaries. Its text stays in the site as an answer's does.
#[unsafe(no_mangle)]
pub unsafe extern "C" fn jumbetai_site_combine(
    at: *mut u8,
    query: u32,
    answers: u64,
    bytes: &[u8],
    lengths: &[u64],
    reply: &mut CombineReply,
)
    ghost held: { Held }
    requires* { sem 𝓛 (lies_at the_row full_share at held) }
    ensures* { ∃ₛ λ kept. sem 𝓛 (lies_at the_row full_share at kept)
        ∗ ⌜ Combined query
        (record { answers = answers; bytes = bytes.now; lengths = lengths.now })
        held kept reply.new ⌝ }
{
    let to = at as *mut Held;
    std::ptr::write(
        to,
        calls::site_combine(std::ptr::read(to), query, answers, bytes, lengths, reply),
    );
}

/// Copies a piece of the answer's text to C, counted from 0.
#[unsafe(no_mangle)]
pub unsafe extern "C" fn jumbetai_site_read(at: *mut u8, piece: u32, out: &mut Piece)
    ghost held: { Held }
    requires* { sem 𝓛 (lies_at the_row full_share at held) }
    ensures* { ∃ₛ λ kept. sem 𝓛 (lies_at the_row full_share at kept)
        ∗ ⌜ HasReadPiece piece held kept out.old out.new ⌝ }
{
    let to = at as *mut Held;
    std::ptr::write(to, calls::site_read(std::ptr::read(to), piece, out));
}

/// Copies the log of a site over files into the database file, closes both, and gives the site's
/// memory back; its room is room of C's again.
#[unsafe(no_mangle)]
pub unsafe extern "C" fn jumbetai_site_close(at: *mut u8)
    ghost held: { Held }
    requires* { sem 𝓛 (lies_at the_row full_share at held) }
    ensures* { sem 𝓛 (room_at the_row at) ∗ ⌜ LetsGo held.site ⌝ }
{
    calls::site_close(std::ptr::read(at as *mut Held));
}

/// Tells C what taking bytes would come to, and how many events they spell.
#[unsafe(no_mangle)]
pub extern "C" fn jumbetai_bytes_test(alloc: Global, bytes: &[u8], reply: &mut Reply)
    ensures { Tested bytes.now reply.new }
{
    bytes_test(alloc, bytes, reply);
}

/// Tells C the part that a source falls to, of so many.
#[unsafe(no_mangle)]
pub extern "C" fn jumbetai_source_part(source: &[u8], parts: u64, part: &mut u64) -> u32
    ensures { TellsSourcePart source.now parts result part.new }
{
    source_part(source, parts, part)
}

/// Tells C how many bytes of room an outbox over a file needs.
#[unsafe(no_mangle)]
pub extern "C" fn jumbetai_outbox_size() -> usize
    ensures { result ≡ type_size outbox_row }
{
    size_of::<OutboxHeld>()
}

/// Opens an outbox over the files of a database, which are the library's from then on, and makes
/// it where there is none: with this base, and with the source that the bytes are, or `/orders`
/// where `has_source` is 0. One that is there has to have the source that is given. Where it is
/// refused, an outbox that isn't open lies in the room.
#[unsafe(no_mangle)]
pub unsafe extern "C" fn jumbetai_outbox_open(
    alloc: Global,
    at: *mut u8,
    given: *mut u8,
    has_source: u32,
    source: &[u8],
    base: u64,
    reply: &mut OutboxReply,
)
    ghost files: { GivenFiles }
    requires* { sem 𝓛 (fsep (room_at outbox_row at) (lies_at given_row full_share given files)) }
    ensures* { ∃ₛ λ made. sem 𝓛 (fsep (lies_at outbox_row full_share at made)
        (room_at given_row given))
        ∗ ⌜ OpenedOutbox has_source source.now base made reply.new ⌝ }
{
    let files = std::ptr::read(given as *mut GivenFiles);
    std::ptr::write(
        at as *mut OutboxHeld,
        calls::outbox_open(alloc, files, has_source, source, base, reply),
    );
}

/// Gives the service a command: 1 places the order, 2 ships it, 3 cancels it. Accepted, the order
/// and its row are kept in the file and synced, and the line of the event stays in the outbox
/// until it is asked again.
#[unsafe(no_mangle)]
pub unsafe extern "C" fn jumbetai_outbox_order(
    at: *mut u8,
    action: u32,
    order: u64,
    time: &[u8],
    reply: &mut OutboxReply,
)
    ghost held: { OutboxHeld }
    requires* { sem 𝓛 (lies_at outbox_row full_share at held) }
    ensures* { ∃ₛ λ kept. sem 𝓛 (lies_at outbox_row full_share at kept)
        ∗ ⌜ OrderedOutbox action order time.now held kept reply.new ⌝ }
{
    let to = at as *mut OutboxHeld;
    std::ptr::write(
        to,
        calls::outbox_order(std::ptr::read(to), action, order, time, reply),
    );
}

/// Asks for the rows with a greater number, at most 100, as a batch; its text stays in the outbox
/// as a command's does.
#[unsafe(no_mangle)]
pub unsafe extern "C" fn jumbetai_outbox_rows(at: *mut u8, after: u64, reply: &mut OutboxReply)
    ghost held: { OutboxHeld }
    requires* { sem 𝓛 (lies_at outbox_row full_share at held) }
    ensures* { ∃ₛ λ kept. sem 𝓛 (lies_at outbox_row full_share at kept)
        ∗ ⌜ ShownOutbox after held kept reply.new ⌝ }
{
    let to = at as *mut OutboxHeld;
    std::ptr::write(to, calls::outbox_rows(std::ptr::read(to), after, reply));
}

/// Copies a piece of the outbox's text to C, counted from 0.
#[unsafe(no_mangle)]
pub unsafe extern "C" fn jumbetai_outbox_read(at: *mut u8, piece: u32, out: &mut Piece)
    ghost held: { OutboxHeld }
    requires* { sem 𝓛 (lies_at outbox_row full_share at held) }
    ensures* { ∃ₛ λ kept. sem 𝓛 (lies_at outbox_row full_share at kept)
        ∗ ⌜ HasReadOutbox piece held kept out.old out.new ⌝ }
{
    let to = at as *mut OutboxHeld;
    std::ptr::write(to, calls::outbox_read(std::ptr::read(to), piece, out));
}

/// Copies the log into the database file, closes both and gives the outbox's memory back; its room
/// is room again.
#[unsafe(no_mangle)]
pub unsafe extern "C" fn jumbetai_outbox_close(at: *mut u8)
    ghost held: { OutboxHeld }
    requires* { sem 𝓛 (lies_at outbox_row full_share at held) }
    ensures* { sem 𝓛 (room_at outbox_row at) ∗ ⌜ LetsGoOutbox held ⌝ }
{
    calls::outbox_close(std::ptr::read(at as *mut OutboxHeld));
}

/// Tells C how many bytes of room a numberer over a file needs.
#[unsafe(no_mangle)]
pub extern "C" fn jumbetai_numbers_size() -> usize
    ensures { result ≡ type_size numbers_row }
{
    size_of::<NumbersHeld>()
}

/// Opens a numberer over the files of a database, which are the library's from then on, and makes
/// it where there is none: each source begins behind this base, which one that is there has to have
/// been given. Where it is refused, a numberer that isn't open lies in the room.
#[unsafe(no_mangle)]
pub unsafe extern "C" fn jumbetai_numbers_open(
    alloc: Global,
    at: *mut u8,
    given: *mut u8,
    base: u64,
    reply: &mut Reply,
)
    ghost files: { GivenFiles }
    requires* { sem 𝓛 (fsep (room_at numbers_row at) (lies_at given_row full_share given files)) }
    ensures* { ∃ₛ λ made. sem 𝓛 (fsep (lies_at numbers_row full_share at made)
        (room_at given_row given)) ∗ ⌜ OpenedNumbers base made reply.new ⌝ }
{
    let files = std::ptr::read(given as *mut GivenFiles);
    std::ptr::write(
        at as *mut NumbersHeld,
        calls::numbers_open(alloc, files, base, reply),
    );
}

/// Numbers the events that the bytes spell, one event or a batch: they are kept in the file with
/// their numbers and synced, and the batch of them stays in the room until it is asked again. An
/// event that was numbered before has the number that it had.
#[unsafe(no_mangle)]
pub unsafe extern "C" fn jumbetai_numbers_number(at: *mut u8, bytes: &[u8], reply: &mut Reply)
    ghost held: { NumbersHeld }
    requires* { sem 𝓛 (lies_at numbers_row full_share at held) }
    ensures* { ∃ₛ λ kept. sem 𝓛 (lies_at numbers_row full_share at kept)
        ∗ ⌜ Numbered bytes.now held kept reply.new ⌝ }
{
    let to = at as *mut NumbersHeld;
    std::ptr::write(to, calls::numbers_number(std::ptr::read(to), bytes, reply));
}

/// Copies a piece of the numberer's text to C, counted from 0.
#[unsafe(no_mangle)]
pub unsafe extern "C" fn jumbetai_numbers_read(at: *mut u8, piece: u32, out: &mut Piece)
    ghost held: { NumbersHeld }
    requires* { sem 𝓛 (lies_at numbers_row full_share at held) }
    ensures* { ∃ₛ λ kept. sem 𝓛 (lies_at numbers_row full_share at kept)
        ∗ ⌜ HasReadNumbers piece held kept out.old out.new ⌝ }
{
    let to = at as *mut NumbersHeld;
    std::ptr::write(to, calls::numbers_read(std::ptr::read(to), piece, out));
}

/// Copies the log into the database file, closes both and gives the numberer's memory back; its
/// room is room again.
#[unsafe(no_mangle)]
pub unsafe extern "C" fn jumbetai_numbers_close(at: *mut u8)
    ghost held: { NumbersHeld }
    requires* { sem 𝓛 (lies_at numbers_row full_share at held) }
    ensures* { sem 𝓛 (room_at numbers_row at) ∗ ⌜ LetsGoNumbers held ⌝ }
{
    calls::numbers_close(std::ptr::read(at as *mut NumbersHeld));
}
