//! Which part an event falls to.

ghost use Rattle.std.specs.Prelude.{◌≡◌, ◌<◌, ◌↔◌, [], ℕ, IfOk, IsTrue, Some, slice_get, vec_len};
ghost use Rattle.parts.specs.Part.{IsCountOfParts, part, part_of};

use attributes::Batch;
use sha2::{Digest, Sha256};
use std::alloc::{AllocError, Global};

/// In how many parts a region may be at most.
pub const MAX_PARTS: u64 = 65_536;

/// Whether a region may be in so many parts: from 1 to `MAX_PARTS`.
pub fn is_count(count: u64) -> bool
    ensures { IsTrue result ↔ IsCountOfParts count }
{
    1 <= count && count <= MAX_PARTS
}

/// Of `count` parts the one that a source falls to, from 0 on: the first eight bytes of its SHA-256
/// (FIPS 180-4) as a number, the greatest byte first, modulo `count`. Fixed for ever: whoever parts
/// a region anew by another rule finds a source in two parts. Time in proportion to the source.
pub fn part_of(source: &[u8], count: u64) -> u64
    requires { IsCountOfParts count }
    ensures part { result ≡ part_of count source.now }
    ensures below { result < count }
{
    let digest = Sha256::digest(source);
    let number = u64::from_be_bytes([
        digest[0], digest[1], digest[2], digest[3], digest[4], digest[5], digest[6], digest[7],
    ]);
    number % count
}

/// The events in `count` parts, each with its events in the order of the batch; they are moved and
/// not copied. Time in proportion to the events and the parts, memory to the parts and 8 bytes or
/// so an event. `AllocError` where memory is refused, and then the events are gone.
pub fn split(alloc: Global, events: Batch, count: u64) -> Result<Vec<Batch>, AllocError>
    requires { IsCountOfParts count }
    ensures len { IfOk result (λ parts. vec_len parts ≡ count) }
    ensures parts { IfOk result (λ parts. (i : ℕ) → i < count
        → slice_get parts.items i ≡ Some (part (part_of count) i events)) }
{
    let mut parts = empty_parts(alloc, count)?;
    let mut events = events;
    while let Some(event) = events.take_front() {
        let i = part_of(event.event().source().as_bytes(), count);
        parts[i as usize].push(event)?;
    }
    Ok(parts)
}

/// So many batches without events, one for each part of a region.
fn empty_parts(alloc: Global, count: u64) -> Result<Vec<Batch>, AllocError>
    requires { IsCountOfParts count }
    ensures len { IfOk result (λ parts. vec_len parts ≡ count) }
    ensures parts { IfOk result (λ parts. (i : ℕ) → i < count
        → slice_get parts.items i ≡ Some []) }
{
    let mut parts = Vec::with_capacity(alloc, count as usize)?;
    for i in 0..count {
        parts.push(Batch::empty(alloc))?;
    }
    Ok(parts)
}
