//! The calls of `library_calls`, each under its own name and contract: the exports are proved step
//! by step, and such a proof can rest only on functions of its own crate.

ghost use Rattle.library_calls.specs.Numbers.{HasReadNumbers, LetsGoNumbers, Numbered, OpenedNumbers};
ghost use Rattle.library_calls.specs.Outboxes.{HasReadOutbox, LetsGoOutbox, OpenedOutbox, OrderedOutbox, ShownOutbox};
ghost use Rattle.library_calls.specs.Parts.{Combined};
ghost use Rattle.library_calls.specs.Rooms.{HasAnswer, HasReadPiece, IsEmpty, KeptOffers, LetsGo, Offered, Opened, RoomCompared, RoomCopied, RoomFound, RoomNamed, RoomPartLacked, RoomSplit, RoomTold, RoomTook};

use durable_site::GivenFiles;
use library_calls::{
    CombineReply, Held, Lag, Name, NumbersHeld, OutboxHeld, OutboxReply, Piece, Reply,
};
use std::alloc::Global;

pub(crate) fn site_open(alloc: Global) -> Held
    ensures { IsEmpty result }
{
    library_calls::site_open(alloc)
}

pub(crate) fn site_open_files(alloc: Global, given: GivenFiles, reply: &mut Reply) -> Held
    ensures { Opened result reply.new }
{
    library_calls::site_open_files(alloc, given, reply)
}

pub(crate) fn site_take(held: Held, bytes: &[u8], reply: &mut Reply) -> Held
    ensures { RoomTook bytes.now held result reply.new }
{
    library_calls::site_take(held, bytes, reply)
}

pub(crate) fn site_offer(held: Held, bytes: &[u8], reply: &mut Reply) -> Held
    ensures { Offered bytes.now held result reply.new }
{
    library_calls::site_offer(held, bytes, reply)
}

pub(crate) fn site_keep(held: Held, reply: &mut Reply) -> Held
    ensures { KeptOffers held result reply.new }
{
    library_calls::site_keep(held, reply)
}

pub(crate) fn site_answer(held: Held, place: u64, reply: &mut Reply) -> Held
    ensures { HasAnswer place held result reply.new }
{
    library_calls::site_answer(held, place, reply)
}

pub(crate) fn site_tell(held: Held, what: u32, bytes: &[u8], from: u64, reply: &mut Reply) -> Held
    ensures { RoomTold what bytes.now from held result reply.new }
{
    library_calls::site_tell(held, what, bytes, from, reply)
}

pub(crate) fn site_part(
    held: Held,
    peer: &[u8],
    from: u64,
    most: u64,
    size: u64,
    reply: &mut Reply,
) -> Held
    ensures { RoomPartLacked peer.now from most size held result reply.new }
{
    library_calls::site_part(held, peer, from, most, size, reply)
}

pub(crate) fn site_get(held: Held, source: &[u8], id: &[u8], reply: &mut Reply) -> Held
    ensures { RoomFound source.now id.now held result reply.new }
{
    library_calls::site_get(held, source, id, reply)
}

pub(crate) fn site_name(held: Held, name: &mut Name) -> Held
    ensures { RoomNamed held result name.old name.new }
{
    library_calls::site_name(held, name)
}

pub(crate) fn site_compare(held: Held, peer: &[u8], lag: &mut Lag) -> Held
    ensures { RoomCompared peer.now held result lag.new }
{
    library_calls::site_compare(held, peer, lag)
}

pub(crate) fn site_copy(held: &mut Held) -> Held
    ensures { RoomCopied held.old held.new result }
{
    library_calls::site_copy(held)
}

pub(crate) fn site_split(held: Held, bytes: &[u8], parts: u64, reply: &mut Reply) -> Held
    ensures { RoomSplit bytes.now parts held result reply.new }
{
    library_calls::site_split(held, bytes, parts, reply)
}

pub(crate) fn site_combine(
    held: Held,
    query: u32,
    answers: u64,
    bytes: &[u8],
    lengths: &[u64],
    reply: &mut CombineReply,
) -> Held
    ensures { Combined query
        (record { answers = answers; bytes = bytes.now; lengths = lengths.now })
        held result reply.new }
{
    library_calls::site_combine(held, query, answers, bytes, lengths, reply)
}

pub(crate) fn site_read(held: Held, piece: u32, out: &mut Piece) -> Held
    ensures { HasReadPiece piece held result out.old out.new }
{
    library_calls::site_read(held, piece, out)
}

pub(crate) fn site_close(held: Held)
    ensures { LetsGo held.site }
{
    library_calls::site_close(held);
}

pub(crate) fn outbox_open(
    alloc: Global,
    given: GivenFiles,
    has_source: u32,
    source: &[u8],
    base: u64,
    reply: &mut OutboxReply,
) -> OutboxHeld
    ensures { OpenedOutbox has_source source.now base result reply.new }
{
    library_calls::outbox_open(alloc, given, has_source, source, base, reply)
}

pub(crate) fn outbox_order(
    held: OutboxHeld,
    action: u32,
    order: u64,
    time: &[u8],
    reply: &mut OutboxReply,
) -> OutboxHeld
    ensures { OrderedOutbox action order time.now held result reply.new }
{
    library_calls::outbox_order(held, action, order, time, reply)
}

pub(crate) fn outbox_rows(held: OutboxHeld, after: u64, reply: &mut OutboxReply) -> OutboxHeld
    ensures { ShownOutbox after held result reply.new }
{
    library_calls::outbox_rows(held, after, reply)
}

pub(crate) fn outbox_read(held: OutboxHeld, piece: u32, out: &mut Piece) -> OutboxHeld
    ensures { HasReadOutbox piece held result out.old out.new }
{
    library_calls::outbox_read(held, piece, out)
}

pub(crate) fn outbox_close(held: OutboxHeld)
    ensures { LetsGoOutbox held }
{
    library_calls::outbox_close(held);
}

pub(crate) fn numbers_open(
    alloc: Global,
    given: GivenFiles,
    base: u64,
    reply: &mut Reply,
) -> NumbersHeld
    ensures { OpenedNumbers base result reply.new }
{
    library_calls::numbers_open(alloc, given, base, reply)
}

pub(crate) fn numbers_number(held: NumbersHeld, bytes: &[u8], reply: &mut Reply) -> NumbersHeld
    ensures { Numbered bytes.now held result reply.new }
{
    library_calls::numbers_number(held, bytes, reply)
}

pub(crate) fn numbers_read(held: NumbersHeld, piece: u32, out: &mut Piece) -> NumbersHeld
    ensures { HasReadNumbers piece held result out.old out.new }
{
    library_calls::numbers_read(held, piece, out)
}

pub(crate) fn numbers_close(held: NumbersHeld)
    ensures { LetsGoNumbers held }
{
    library_calls::numbers_close(held);
}
