//! Batches, read member by member: the tree of each is given back before the next is made.
ghost use Rattle.std.specs.Prelude.{◌≡◌, ◌≢◌, ◌+◌, ◌<◌, ◌≤◌, List, [], length, map, slice_get, Some, IfErr, IfOk, IfSome, OnOk, IsUtf8, true};
ghost use Rattle.serde_json.specs.Data.{Data, array};
ghost use Rattle.serde_json.specs.Read.{read};
ghost use Rattle.serde_json.specs.View.{items_view, view};
ghost use Rattle.event_json.specs.Parts.{part_text};
ghost use Rattle.event_json.specs.steps.Pieces.{AddsMembers, Gathers, GoesOn};

use serde_json::{Category, Value};
use std::alloc::{AllocError, Global};

/// What is gathered of the members of a batch, some of them at a time.
pub trait Gather {
    /// Whether that is what is gathered of these members.
    ghost is_of: { Self → List Data → Type 0 };

    /// What is gathered once these members stand behind the others of a batch. The text is that of
    /// a JSON array of these members.
    fn add(self, alloc: Global, text: &[u8], members: Vec<Value>) -> Result<Self, AllocError>
        requires { IsUtf8 text.now × (read text.now ≡ Some (array (items_view members.items))) }
        ensures { IfOk result (λ more.
            GoesOn (is_of self) (is_of more) (map view members.items)) };
}

/// What is gathered of a batch's members, where each of them is read by itself. `None` says nothing
/// of the bytes: they may be no batch, or one that has to be read whole.
pub fn read_batch_text<G: Gather + Drop>(
    alloc: Global,
    bytes: &[u8],
    start: G,
) -> Result<Option<G>, AllocError>
    requires { G.is_of start [] }
    ensures gathers { IfOk result (λ o. IfSome o (λ g.
        Gathers (part_text true bytes.now true) (G.is_of g))) }
    ensures memory { IfErr result (λ _. 0 < length bytes.now) }
{
    if !begins_array(bytes) {
        return Ok(None);
    }
    read_part(alloc, bytes, true, true, start)
}

/// Whether the first byte of JSON that is no white space opens an array.
fn begins_array(bytes: &[u8]) -> bool
    ensures { result ≡ true → 0 < length bytes.now }
{
    for byte in bytes {
        match *byte {
            b' ' | b'\t' | b'\n' | b'\r' => {}
            b'[' => return true,
            _ => return false,
        }
    }
    false
}

/// What is gathered of a part of a batch, which stands between two commas unless it begins or ends
/// the batch. `None` says nothing of the bytes.
pub fn read_part<G: Gather + Drop>(
    alloc: Global,
    bytes: &[u8],
    opened: bool,
    closed: bool,
    start: G,
) -> Result<Option<G>, AllocError>
    requires { G.is_of start [] }
    ensures { IfOk result (λ o. IfSome o (λ g.
        Gathers (part_text opened bytes.now closed) (G.is_of g))) }
{
    let mut text = Vec::new(alloc);
    let depth = if opened { 0 } else { 1 };
    let Some(first) = next_comma(bytes, 0, depth, 0) else {
        if opened && closed {
            return Ok(None);
        }
        fill(&mut text, opened, bytes, closed)?;
        return add_piece(alloc, &text, start);
    };
    fill(&mut text, opened, &bytes[..first], false)?;
    let Some(mut gathered) = add_piece(alloc, &text, start)? else {
        return Ok(None);
    };
    let mut at = first;
    while let Some(next) = next_comma(bytes, at + 1, 1, 0) {
        fill(&mut text, false, &bytes[at + 1..next], false)?;
        let Some(more) = add_piece(alloc, &text, gathered)? else {
            return Ok(None);
        };
        gathered = more;
        at = next;
    }
    fill(&mut text, false, &bytes[at + 1..], closed)?;
    add_piece(alloc, &text, gathered)
}

/// The text of a JSON array whose items' text is given, in place of what a buffer holds; brackets
/// stand already at the ends of the batch.
fn fill(text: &mut Vec<u8>, opened: bool, piece: &[u8], closed: bool) -> Result<(), AllocError>
    ensures { OnOk result (text.new.items ≡ part_text opened piece.now closed) }
{
    text.clear();
    if !opened {
        text.push(b'[')?;
    }
    text.extend_from_slice(piece)?;
    if !closed {
        text.push(b']')?;
    }
    Ok(())
}

/// What is gathered of a batch once the members of a JSON array stand behind the others. `None`
/// where the text is none of an array that has some.
fn add_piece<G: Gather + Drop>(
    alloc: Global,
    text: &[u8],
    gathered: G,
) -> Result<Option<G>, AllocError>
    ensures { IfOk result (λ o. IfSome o (λ more.
        AddsMembers text.now (G.is_of gathered) (G.is_of more))) }
{
    let Some(members) = items_of(alloc, text)? else {
        return Ok(None);
    };
    let more = gathered.add(alloc, text, members)?;
    Ok(Some(more))
}

/// The items of the JSON array that a text is, if it has some.
pub fn items_of(alloc: Global, text: &[u8]) -> Result<Option<Vec<Value>>, AllocError>
    ensures { IfOk result (λ o. IfSome o (λ v. (v.items ≢ []) × IsUtf8 text.now
        × (read text.now ≡ Some (array (items_view v.items))))) }
{
    match Value::from_slice(alloc, text) {
        Ok(Value::Array(items)) => {
            if items.is_empty() {
                Ok(None)
            } else {
                Ok(Some(items))
            }
        }
        Ok(_) => Ok(None),
        Err(e) => match e.classify() {
            Category::Memory => Err(AllocError),
            _ => Ok(None),
        },
    }
}

/// The place of the first comma of JSON at depth 1 that stands at `least` bytes behind a place of
/// some depth, or later. Whether it parts two members of a batch no clause says; none has to.
pub fn next_comma(bytes: &[u8], from: usize, depth: usize, least: usize) -> Option<usize>
    requires { from ≤ length bytes.now }
    ensures { IfSome result (λ i. (from ≤ i) × (i < length bytes.now)
        × (slice_get bytes.now i ≡ Some 44)) }
{
    let least = from.saturating_add(least);
    let mut depth = depth;
    let mut at = from;
    while at < bytes.len() {
        match bytes[at] {
            b'"' => at = past_string(bytes, at + 1),
            b'{' | b'[' => {
                depth = depth.wrapping_add(1);
                at += 1;
            }
            b'}' | b']' => {
                depth = depth.wrapping_sub(1);
                at += 1;
            }
            b',' => {
                if depth == 1 && at >= least {
                    return Some(at);
                }
                at += 1;
            }
            _ => at += 1,
        }
    }
    None
}

/// The place behind the quote that closes a JSON string whose content begins at a place.
fn past_string(bytes: &[u8], from: usize) -> usize
    requires { from ≤ length bytes.now }
    ensures { (from ≤ result) × (result ≤ length bytes.now + 1) }
{
    let mut at = from;
    while at < bytes.len() {
        match bytes[at] {
            b'"' => return at + 1,
            b'\\' => at += 2,
            _ => at += 1,
        }
    }
    at
}
