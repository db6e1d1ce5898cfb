//! The lines of answers, and what each says.

ghost use Rattle.std.specs.Prelude.{◌≡◌, ◌≤◌, ◌++◌, IfOk, List, OnOk, Some, option_and_then, option_map};
ghost use Rattle.serde_json.specs.Data.{Data, depth};
ghost use Rattle.serde_json.specs.Find.{as_number, as_str, as_u64, at};
ghost use Rattle.serde_json.specs.Read.{max_depth};
ghost use Rattle.serde_json.specs.View.{view};
ghost use Rattle.serde_json.specs.Written.{compact_text};
ghost use Rattle.attributes.specs.Exact.{IsExact};
ghost use Rattle.parts.specs.Lines.{AreLinesOf};

use attributes::List;
use attributes::laws::exact_json_reads_back;
use serde_json::{Category, Value};
use std::alloc::{AllocError, Global};

/// What a line of an answer says.
pub(crate) trait Row {
    ghost use Rattle.std.specs.Prelude.{◌≡◌, IfOk, List, Some, ℕ};

    /// The line is the row's.
    ghost is_line: { Self → List ℕ → Type 0 };

    /// The row of a line of a part's answer, where it is the line of one.
    fn read(alloc: Global, line: &str) -> Result<Option<Self>, AllocError>
        ensures { IfOk result (λ o. (row : Self) → is_line row line.now → o ≡ Some row) };
}

/// The rows of which a part's answer has the lines, in their order.
pub(crate) fn read_rows<R: Row + Drop>(
    alloc: Global,
    text: &str,
) -> Result<Option<List<R>>, AllocError>
    ensures { IfOk result (λ o. (rows : List R) → AreLinesOf R.is_line rows text.now
        → o ≡ Some rows) }
{
    let mut rows = List::empty(alloc);
    let mut rest = text;
    while let Some((line, more)) = rest.split_once('\n') {
        match R::read(alloc, line)? {
            Some(row) => rows.push(row)?,
            None => return Ok(None),
        }
        rest = more;
    }
    Ok(Some(rows))
}

/// Adds values that the answers of parts tell at the end of others.
pub(crate) fn append<R: Drop>(all: &mut List<R>, more: List<R>) -> Result<(), AllocError>
    ensures { OnOk result (all.new ≡ all.old ++ more) }
{
    for row in more.into_vec() {
        all.push(row)?;
    }
    Ok(())
}

/// The JSON value that a line of a part's answer is the compact text of, if it is that of one.
pub(crate) fn read_value(alloc: Global, line: &str) -> Result<Option<Value>, AllocError>
    ensures { IfOk result (λ o. (d : Data) → IsExact d → depth d ≤ max_depth
        → line.now ≡ compact_text d → option_map view o ≡ Some d) }
{
    // A law that the clause rests on; the call does nothing.
    exact_json_reads_back();
    match Value::from_str(alloc, line) {
        Ok(value) => Ok(Some(value)),
        Err(e) => match e.classify() {
            Category::Memory => Err(AllocError),
            _ => Ok(None),
        },
    }
}

/// The text at a place of an array in a part's answer, where one stands there.
pub(crate) fn word_at(value: &Value, place: usize) -> Option<&str>
    ensures { option_map (λ s. s.now) result ≡ option_and_then as_str (at place (view value.now)) }
{
    match value.get(place) {
        Some(item) => item.as_str(),
        None => None,
    }
}

/// The whole number from 0 to 2^64 - 1 at a place of an array in a part's answer, if one is there.
pub(crate) fn whole_at(value: &Value, place: usize) -> Option<u64>
    ensures { result ≡ option_and_then (λ d. option_and_then as_u64 (as_number d))
        (at place (view value.now)) }
{
    match value.get(place) {
        Some(item) => item.as_u64(),
        None => None,
    }
}
