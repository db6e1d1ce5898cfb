//! Tests of a JSON value's shape.
ghost use Rattle.std.specs.Prelude.{◌≡◌, Some, option_map};
ghost use Rattle.serde_json.specs.View.{view};
ghost use Rattle.coverage.specs.SummaryShape.{block_in, interval_in, is_list_of_blocks};
ghost use Rattle.coverage.specs.SummaryShape.{is_list_of_pairs, is_object_of_blocks};
ghost use Rattle.coverage.specs.SummaryShape.{is_object_of_lists, is_shaped};
ghost use Rattle.coverage.specs.SummaryShape.{is_shaped_with_blocks, version_of};

use crate::intervals::Interval;
use serde_json::Value;

/// The interval of a summary's array of two whole numbers.
pub(crate) fn interval_in(value: &Value) -> Option<Interval>
    ensures { result ≡ interval_in (view value.now) }
{
    let Some(pair) = value.as_array() else {
        return None;
    };
    if pair.len() != 2 {
        return None;
    }
    match (pair[0].as_u64(), pair[1].as_u64()) {
        (Some(first), Some(last)) => Some((first, last)),
        _ => None,
    }
}

/// Whether a summary's JSON value is an array of pairs of numbers, as intervals are.
fn is_list_of_pairs(value: &Value) -> bool
    ensures { result ≡ is_list_of_pairs (view value.now) }
{
    let Some(list) = value.as_array() else {
        return false;
    };
    for item in list {
        if interval_in(item).is_none() {
            return false;
        }
    }
    true
}

/// Whether a summary's JSON value is an object of arrays of pairs of numbers.
fn is_object_of_lists(value: &Value) -> bool
    ensures { result ≡ is_object_of_lists (view value.now) }
{
    let Some(sources) = value.as_object() else {
        return false;
    };
    for (_, list) in sources {
        if !is_list_of_pairs(list) {
            return false;
        }
    }
    true
}

/// The member `version` of a summary, where it is a whole number.
pub(crate) fn version_of(value: &Value) -> Option<u64>
    ensures { result ≡ version_of (view value.now) }
{
    value.get("version").and_then(Value::as_u64)
}

/// Whether a summary's members are just `version` and `sources`, and `sources` has lists of pairs
/// of numbers.
pub(crate) fn is_shaped(value: &Value) -> bool
    ensures { result ≡ is_shaped (view value.now) }
{
    let Some(members) = value.as_object() else {
        return false;
    };
    if members.len() != 2 {
        return false;
    }
    match value.get("sources") {
        Some(sources) => is_object_of_lists(sources),
        None => false,
    }
}

/// The block's number and digest text of a summary's array of a whole number and a text.
pub(crate) fn block_in(value: &Value) -> Option<(u64, &str)>
    ensures { option_map (λ p. (p.0, p.1.now)) result ≡ block_in (view value.now) }
{
    let Some(pair) = value.as_array() else {
        return None;
    };
    if pair.len() != 2 {
        return None;
    }
    match (pair[0].as_u64(), pair[1].as_str()) {
        (Some(k), Some(text)) => Some((k, text)),
        _ => None,
    }
}

/// Whether a summary's JSON value is an array of arrays of a block's number and a text.
fn is_list_of_blocks(value: &Value) -> bool
    ensures { result ≡ is_list_of_blocks (view value.now) }
{
    let Some(list) = value.as_array() else {
        return false;
    };
    for item in list {
        if block_in(item).is_none() {
            return false;
        }
    }
    true
}

/// Whether a summary's JSON is an object of arrays of arrays of a block's number and a text.
fn is_object_of_blocks(value: &Value) -> bool
    ensures { result ≡ is_object_of_blocks (view value.now) }
{
    let Some(sources) = value.as_object() else {
        return false;
    };
    for (_, list) in sources {
        if !is_list_of_blocks(list) {
            return false;
        }
    }
    true
}

/// Whether a summary's members are just `version`, `blocks` and `sources`, `blocks` has lists of
/// pairs of a number and a text, and `sources` has lists of pairs of numbers.
pub(crate) fn is_shaped_with_blocks(value: &Value) -> bool
    ensures { result ≡ is_shaped_with_blocks (view value.now) }
{
    let Some(members) = value.as_object() else {
        return false;
    };
    if members.len() != 3 {
        return false;
    }
    match (value.get("blocks"), value.get("sources")) {
        (Some(blocks), Some(sources)) => {
            is_object_of_blocks(blocks) && is_object_of_lists(sources)
        }
        _ => false,
    }
}
