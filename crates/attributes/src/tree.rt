//! JSON values that an event carries.

ghost use Rattle.std.specs.Prelude.{◌≡◌, ◌↔◌, IfOk, IsTrue, nat_le};
ghost use Rattle.serde_json.specs.Data.{depth, items_depth, members_depth, null};
ghost use Rattle.serde_json.specs.View.{items_view, members_view, view as tree_of};
ghost use Rattle.serde_json.specs.Written.{has_float, items_have_float, members_have_float};

use serde_json::{Map, Value};
use std::alloc::{AllocError, Global};
use std::marker::Model;

/// A JSON value, seen as its tree.
#[derive(Drop)]
pub struct Tree {
    value: Value,
}

impl Model for Tree {
    ghost use Rattle.serde_json.specs.Data.{Data};
    ghost use Rattle.serde_json.specs.View.{view as tree_of};
    ghost use Rattle.attributes.specs.TreeCode.{tree_code};

    ghost Value = { Data };

    ghost coded = { tree_code };

    ghost view = { λ t. tree_of t.value };
}

impl Tree {
    /// The tree of a value, moved.
    pub fn of(value: Value) -> Tree
        ensures { result ≡ tree_of value }
    {
        Tree { value }
    }

    /// Whether the value is `null`.
    pub fn is_null(&self) -> bool
        ensures { IsTrue result ↔ (self.now ≡ null) }
    {
        matches!(self.value, Value::Null)
    }

    /// The value, lent.
    pub fn value(&self) -> &Value
        ensures { tree_of result.now ≡ self.now }
    {
        &self.value
    }

    /// The value, moved.
    pub fn into_value(self) -> Value
        ensures { tree_of result ≡ self }
    {
        self.value
    }

    /// A tree that is equal. Time and memory in proportion to it.
    pub fn copy(&self) -> Result<Tree, AllocError>
        ensures { IfOk result (λ t. t ≡ self.now) }
    {
        Ok(Tree {
            value: self.value.clone()?,
        })
    }
}

/// Whether a number of an event's data is no whole one of 64 bits.
#[cycle(floats)]
pub(crate) fn any_float(value: &Value) -> bool
    ensures { result ≡ has_float (tree_of value.now) }
{
    match value {
        Value::Number(number) => number.is_f64(),
        Value::Array(items) => items_any_float(items),
        Value::Object(members) => members_any_float(members),
        _ => false,
    }
}

/// Whether a number of the items of an event's data is no whole one of 64 bits.
#[cycle(floats)]
fn items_any_float(items: &Vec<Value>) -> bool
    ensures { result ≡ items_have_float (items_view items.now.items) }
{
    for item in items {
        if any_float(item) {
            return true;
        }
    }
    false
}

/// Whether a number of the members of an event's data is no whole one of 64 bits.
#[cycle(floats)]
fn members_any_float(members: &Map<String, Value>) -> bool
    ensures { result ≡ members_have_float (members_view members.now.entries) }
{
    for (_, value) in members {
        if any_float(value) {
            return true;
        }
    }
    false
}

/// Whether arrays and objects nest at most that deep in an event's data.
#[cycle(depths)]
pub(crate) fn is_within(value: &Value, limit: u8) -> bool
    ensures { result ≡ nat_le (depth (tree_of value.now)) limit }
{
    match value {
        Value::Array(items) => limit > 0 && items_within(items, limit - 1),
        Value::Object(members) => limit > 0 && members_within(members, limit - 1),
        _ => true,
    }
}

/// Whether the items in an event's data nest at most that deep.
#[cycle(depths)]
fn items_within(items: &Vec<Value>, limit: u8) -> bool
    ensures { result ≡ nat_le (items_depth (items_view items.now.items)) limit }
{
    for item in items {
        if !is_within(item, limit) {
            return false;
        }
    }
    true
}

/// Whether the members in an event's data nest at most that deep.
#[cycle(depths)]
fn members_within(members: &Map<String, Value>, limit: u8) -> bool
    ensures { result ≡ nat_le (members_depth (members_view members.now.entries)) limit }
{
    for (_, value) in members {
        if !is_within(value, limit) {
            return false;
        }
    }
    true
}
