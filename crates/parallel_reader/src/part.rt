//! Parts of a batch, each read with a thread of its own.
ghost use Rattle.std.specs.Prelude.{◌≡◌, ◌<◌, false, IfOk, IfSome};
ghost use Rattle.std.specs.Thread.{IsSync};
ghost use Rattle.event_json.specs.Parts.{part_text};
ghost use Rattle.parallel_reader.specs.Parts.{IsBatchPart};

use attributes::Batch;
use event_files::{ReportFault, append, batch_of, in_key_order, sequenced};
use event_json::{batch_parts_join, next_comma, read_part_events};
use std::alloc::{AllocError, Global};
use std::thread::{Threads, join};

/// The events of a part of a large file's batch, each half of it read with threads of its own, down
/// to `levels` halvings. `None` says nothing of the bytes.
#[cycle(levels)]
pub fn read_halves<R: Threads + Sync>(
    rt: &R,
    alloc: Global,
    bytes: &[u8],
    opened: bool,
    closed: bool,
    is_sorted: bool,
    levels: u32,
) -> Result<Option<Batch>, AllocError>
    ensures { IfOk result (λ o. IfSome o (IsBatchPart (part_text opened bytes.now closed) is_sorted)) }
{
    if levels == 0 {
        return read_part(alloc, bytes, opened, closed, is_sorted);
    }
    let depth = if opened { 0 } else { 1 };
    let Some(at) = next_comma(bytes, 0, depth, bytes.len() / 2) else {
        return read_part(alloc, bytes, opened, closed, is_sorted);
    };
    let left = &bytes[..at];
    let right = &bytes[at + 1..];
    let (first, rest) = join(
        rt,
        || -> Result<Option<Batch>, AllocError>
            requires { IsSync R.row × (0 < levels) }
            ensures { IfOk result (λ o. IfSome o
                (IsBatchPart (part_text opened left.entry.now false) is_sorted)) }
        { read_halves(rt, alloc, left, opened, false, is_sorted, levels - 1) },
        || -> Result<Option<Batch>, AllocError>
            requires { IsSync R.row × (0 < levels) }
            ensures { IfOk result (λ o. IfSome o
                (IsBatchPart (part_text false right.entry.now closed) is_sorted)) }
        { read_halves(rt, alloc, right, false, closed, is_sorted, levels - 1) },
    );
    // That two parts are one where a comma joins them is a law; it does nothing.
    batch_parts_join();
    let Some(mut events) = first? else {
        return Ok(None);
    };
    let Some(more) = rest? else {
        return Ok(None);
    };
    append(&mut events, more)?;
    Ok(Some(events))
}

/// The events of a part of a large file's batch, with numbers. `None` says nothing of the bytes.
fn read_part(
    alloc: Global,
    bytes: &[u8],
    opened: bool,
    closed: bool,
    is_sorted: bool,
) -> Result<Option<Batch>, AllocError>
    ensures { IfOk result (λ o. IfSome o (IsBatchPart (part_text opened bytes.now closed) is_sorted)) }
{
    let Some(events) = read_part_events(alloc, bytes, opened, closed)? else {
        return Ok(None);
    };
    match sequenced(alloc, events) {
        Ok(events) => {
            let batch = if is_sorted {
                in_key_order(alloc, events)?
            } else {
                batch_of(alloc, events)?
            };
            Ok(Some(batch))
        }
        Err(ReportFault::OutOfMemory) => Err(AllocError),
        Err(_) => Ok(None),
    }
}
