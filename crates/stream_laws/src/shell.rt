//! The commands of a line of shell, one after the other over connections.
ghost use Rattle.std.specs.Prelude.{◌≡◌, List, IfOk, Some};
ghost use Rattle.sqlite.specs.Held.{state};
ghost use Rattle.sqlite.specs.State.{HasCleanDisk};
ghost use Rattle.attributes.specs.Event.{EventValue};
ghost use Rattle.inbox.specs.KeyOrder.{key_cmp};
ghost use Rattle.inbox.specs.Ordered.{append_new};
ghost use Rattle.inbox.specs.Sets.{AreEvents, set_of};
ghost use Rattle.inbox_table.specs.Rows.{IsInbox};
ghost use Rattle.block_digests.specs.Lacking.{lacking};
ghost use Rattle.block_digests.specs.Number.{HaveEachNumber};
ghost use Rattle.databases.specs.Held.{Holds};
ghost use Rattle.databases.specs.Pages.{pages_text};

use crate::laws::pages_are_taken;
use coverage::Summary;
use coverage::laws::{summaries_stand_for_sets, texts_tell_summaries};
use database_commands::{CommandEnd, Streamed, delta_pages, follow, summary};
use databases::{CommandFault, EventPages, StreamFault, summary_of};
use sqlite::{Alter, Connection};
use std::alloc::{AllocError, Global};
use std::io::{Read, Write};

/// What one database lacks of another, to be printed page after page.
#[derive(Drop)]
pub struct Compared<S: Alter + Drop, T: Alter + Drop> {
    pub asked: Connection<S>,
    pub other: Connection<T>,
    pub outcome: Result<EventPages, CommandFault>,
}

/// `summary` of the first database and `delta --all` of the second by the line that it prints: what
/// the first's set lacks of the second's.
pub fn compare<S: Alter + Drop, T: Alter + Drop>(
    alloc: Global,
    asked: Connection<S>,
    other: Connection<T>,
) -> Compared<S, T>
    ensures { HasCleanDisk (state S.Store result.asked)
        → HasCleanDisk (state T.Store result.other) → IfOk result.outcome (λ pages.
        (A B : List EventValue) → Holds (state S.Store asked).now A
        → Holds (state T.Store other).now B → pages ≡ lacking (set_of B) (set_of A)) }
{
    summaries_stand_for_sets();
    texts_tell_summaries();
    let CommandEnd {
        conn: asked,
        outcome: answer,
    } = summary(alloc, asked);
    let line = match answer {
        Ok(line) => line,
        Err(fault) => {
            return Compared {
                asked,
                other,
                outcome: Err(fault),
            };
        }
    };
    let peer = match Summary::of_text(alloc, summary_of(line.as_str().as_bytes())) {
        Ok(peer) => peer,
        Err(_) => {
            return Compared {
                asked,
                other,
                outcome: Err(CommandFault::OutOfMemory),
            };
        }
    };
    let CommandEnd {
        conn: other,
        outcome,
    } = delta_pages(alloc, other, peer);
    Compared {
        asked,
        other,
        outcome,
    }
}

/// `follow` of the text of pages: the events of the pages that weren't there come in behind what the
/// database held, and no line is at fault.
pub fn follow_pages<S: Alter + Drop, R: Read, W: Write>(
    alloc: Global,
    conn: Connection<S>,
    input: &mut R,
    out: &mut W,
) -> Streamed<S>
    ensures { HasCleanDisk (state S.Store result.conn) → IfOk result.outcome (λ faults.
        (es held : List EventValue) → AreEvents es → HaveEachNumber es
        → R.remaining input.old ≡ Some (pages_text es) → Holds (state S.Store conn).now held
        → IsInbox (state S.Store result.conn).now (append_new key_cmp held es) × (faults ≡ 0)) }
{
    pages_are_taken();
    follow(alloc, conn, input, out)
}

/// The text of pages in a line of shell, each behind the one before.
fn text_of(alloc: Global, pages: EventPages) -> Result<Vec<u8>, AllocError>
    ensures { IfOk result (λ text. text.items ≡ pages_text pages) }
{
    let mut left = pages;
    let mut text = Vec::new(alloc);
    let most = left.most();
    for page in 0..most {
        match left.next_line()? {
            Some(line) => text.extend_from_slice(line.as_str().as_bytes())?,
            None => return Ok(text),
        }
    }
    Ok(text)
}

/// Two databases after a line of shell: the first as it was asked and as it is, and the other.
#[derive(Drop)]
pub struct Sent<S: Alter + Drop, T: Alter + Drop> {
    pub asked: Connection<S>,
    pub other: Connection<T>,
    pub taking: Connection<S>,
    pub outcome: Result<u64, StreamFault>,
}

/// `site summary --db A | site delta --db B --all - | site follow --db A`, over two connections to A's
/// database: `asked` and then `taking`.
pub fn send<S: Alter + Drop, T: Alter + Drop, W: Write>(
    alloc: Global,
    asked: Connection<S>,
    other: Connection<T>,
    taking: Connection<S>,
    out: &mut W,
) -> Sent<S, T>
    requires { (state S.Store taking).now ≡ (state S.Store asked).now }
    ensures { HasCleanDisk (state S.Store result.asked)
        → HasCleanDisk (state T.Store result.other)
        → HasCleanDisk (state S.Store result.taking) → IfOk result.outcome (λ faults.
        (A B : List EventValue) → Holds (state S.Store asked).now A
        → Holds (state T.Store other).now B
        → IsInbox (state S.Store result.taking).now
        (append_new key_cmp A (lacking (set_of B) (set_of A))) × (faults ≡ 0)) }
{
    let Compared {
        asked,
        other,
        outcome,
    } = compare(alloc, asked, other);
    let pages = match outcome {
        Ok(pages) => pages,
        Err(fault) => {
            return Sent {
                asked,
                other,
                taking,
                outcome: Err(StreamFault::Database(fault)),
            };
        }
    };
    let text = match text_of(alloc, pages) {
        Ok(text) => text,
        Err(_) => {
            return Sent {
                asked,
                other,
                taking,
                outcome: Err(StreamFault::Database(CommandFault::OutOfMemory)),
            };
        }
    };
    let mut input = text.as_slice();
    let Streamed { conn, outcome } = follow_pages(alloc, taking, &mut input, out);
    Sent {
        asked,
        other,
        taking: conn,
        outcome,
    }
}
