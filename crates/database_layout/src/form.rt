//! Whether a table or an index is one of ours.

ghost use Rattle.std.specs.Prelude.{◌≡◌, ◌↔◌, ◌<◌, ◌^◌, ℕ, suc, [], ◌∷◌, IsTrue, Some};
ghost use Rattle.sqlite_value.specs.declared.value.Value.TheVariants.{Null};
ghost use Rattle.database_layout.specs.Layout.{HasInboxForm, service_tables};
ghost use Rattle.database_layout.specs.Tables.{column, inbox, inbox2, inbox2_columns, inbox2_index, inbox_columns, inbox_index, key_index, key_places, keyed, orders, outbox, service, table};
ghost use Rattle.database_layout.specs.steps.Parts.{IsBareTable};

use crate::check::{checks_service, checks_status};
use sqlite_schema::code::Terms;
use sqlite_schema::schema::{Column, Index, Kind, Schema, Table};
use sqlite_value::keys::Collation;
use sqlite_value::value::Value;

/// Whether the value that a schema has as a column's default is NULL.
fn is_null(value: &Value) -> bool
    ensures { IsTrue result ↔ (value.now ≡ Null) }
{
    match value {
        Value::Null => true,
        _ => false,
    }
}

/// Whether a table's column has this name and kind, and neither a default nor an own collation.
fn is_column(found: &Column, name: &str, kind: Kind, not_null: bool) -> bool
    ensures { IsTrue result ↔ (found.now ≡ column name.now kind not_null) }
{
    found.name.as_slice() == name.as_bytes()
        && found.kind == kind
        && found.is_strict
        && found.not_null == not_null
        && is_null(&found.default)
        && found.collation == Collation::Binary
}

/// Whether a table's schema has no term, as for a default or a CHECK.
fn are_none(terms: &Terms) -> bool
    ensures { IsTrue result ↔ (terms.now ≡ []) }
{
    terms.roots.is_empty()
}

/// Whether a table of the schema has its first column as key, and nothing but its name, columns,
/// UNIQUEs and CHECKs says more of it.
fn is_bare(table: &Table) -> bool
    ensures { IsTrue result ↔ IsBareTable table.now }
{
    table.key == Some(0)
        && table.primary.as_slice() == [0].as_slice()
        && table.references.is_empty()
        && table.computed.is_empty()
        && table.stamps.places.is_empty()
        && are_none(&table.stamps.terms)
        && table.stamps.formats.is_empty()
        && !table.is_counted
}

/// Whether a schema's table has this name, no UNIQUE, and is else as its columns and CHECKs say.
fn is_plain(found: &Table, name: &str) -> bool
    ensures { IsTrue result → (found.now
        ≡ table name.now found.now.tree found.now.columns found.now.checks) }
{
    found.name.as_slice() == name.as_bytes()
        && found.uniques.is_empty()
        && found.orders.is_empty()
        && is_bare(found)
}

/// Whether the columns of a table are those of `service`.
fn are_service_columns(columns: &[Column]) -> bool
    ensures { IsTrue result → columns.now ≡ (service 0).columns }
{
    match columns {
        [one, source, base] => {
            is_column(one, "one", Kind::Integer, false)
                && is_column(source, "source", Kind::Text, true)
                && is_column(base, "base", Kind::Integer, true)
        }
        _ => false,
    }
}

/// Whether a table of the file is `service`, wherever its rows lie.
fn is_service(found: &Table) -> bool
    ensures { IsTrue result → found.now ≡ service found.now.tree }
{
    is_plain(found, "service")
        && are_service_columns(found.columns.as_slice())
        && checks_service(&found.checks)
}

/// Whether the columns of a table are those of `orders`.
fn are_orders_columns(columns: &[Column]) -> bool
    ensures { IsTrue result → columns.now ≡ (orders 0).columns }
{
    match columns {
        [number, state] => {
            is_column(number, "number", Kind::Integer, false)
                && is_column(state, "state", Kind::Integer, true)
        }
        _ => false,
    }
}

/// Whether a table of the file is `orders`, wherever its rows lie.
fn is_orders(found: &Table) -> bool
    ensures { IsTrue result → found.now ≡ orders found.now.tree }
{
    is_plain(found, "orders")
        && are_orders_columns(found.columns.as_slice())
        && checks_status(&found.checks)
}

/// Whether the columns of a table are those of `outbox`.
fn are_outbox_columns(columns: &[Column]) -> bool
    ensures { IsTrue result → columns.now ≡ (outbox 0).columns }
{
    match columns {
        [number, kind, order, at] => {
            is_column(number, "number", Kind::Integer, false)
                && is_column(kind, "kind", Kind::Integer, true)
                && is_column(order, "order_number", Kind::Integer, true)
                && is_column(at, "at", Kind::Text, true)
        }
        _ => false,
    }
}

/// Whether a table of the file is `outbox`, wherever its rows lie.
fn is_outbox(found: &Table) -> bool
    ensures { IsTrue result → found.now ≡ outbox found.now.tree }
{
    is_plain(found, "outbox")
        && are_outbox_columns(found.columns.as_slice())
        && checks_status(&found.checks)
}

/// Whether a file's tables are the three of a service, in trees from this one on.
pub(crate) fn are_service(first: &Table, second: &Table, third: &Table, tree: u32) -> bool
    requires { tree < 100 }
    ensures { IsTrue result → first.now ∷ second.now ∷ third.now ∷ [] ≡ service_tables tree }
{
    first.tree == tree
        && second.tree == tree + 1
        && third.tree == tree + 2
        && is_service(first)
        && is_orders(second)
        && is_outbox(third)
}

/// Whether the places in an inbox's UNIQUE are those of source, id and text.
fn is_key(places: &[usize]) -> bool
    ensures { IsTrue result ↔ (places.now ≡ key_places) }
{
    places == [2, 3, 5].as_slice()
}

/// Whether a table of the file has this name and the UNIQUE of an inbox, and no CHECK.
fn is_keyed(table: &Table, name: &str) -> bool
    ensures { IsTrue result ↔ (table.now ≡ keyed name.now table.now.columns table.now.tree) }
{
    match (table.uniques.as_slice(), table.orders.as_slice()) {
        ([key], [order]) if order.digits == 0 && is_key(key.as_slice()) => {
            table.name.as_slice() == name.as_bytes() && are_none(&table.checks) && is_bare(table)
        }
        _ => false,
    }
}

/// Whether the columns of a table are those of an inbox of version 1.
fn are_inbox_columns(columns: &[Column]) -> bool
    ensures { IsTrue result ↔ (columns.now ≡ inbox_columns) }
{
    match columns {
        [place, source, id, number, body] => {
            is_column(place, "place", Kind::Integer, false)
                && is_column(source, "source", Kind::Text, true)
                && is_column(id, "id", Kind::Text, true)
                && is_column(number, "number", Kind::Integer, true)
                && is_column(body, "body", Kind::Text, true)
        }
        _ => false,
    }
}

/// Whether the columns of a table are those of an inbox of version 2.
fn are_inbox2_columns(columns: &[Column]) -> bool
    ensures { IsTrue result ↔ (columns.now ≡ inbox2_columns) }
{
    match columns {
        [place, source, id, number, body, block] => {
            is_column(place, "place", Kind::Integer, false)
                && is_column(source, "source", Kind::Text, true)
                && is_column(id, "id", Kind::Text, true)
                && is_column(number, "number", Kind::Integer, true)
                && is_column(body, "body", Kind::Text, true)
                && is_column(block, "block", Kind::Integer, true)
        }
        _ => false,
    }
}

/// Whether a table of the file is the inbox of version 1, wherever its rows lie.
fn is_inbox(table: &Table) -> bool
    ensures { IsTrue result ↔ (table.now ≡ inbox table.now.tree) }
{
    is_keyed(table, "inbox") && are_inbox_columns(table.columns.as_slice())
}

/// Whether a table of the file is the inbox of version 2, wherever its rows lie.
fn is_inbox2(table: &Table) -> bool
    ensures { IsTrue result ↔ (table.now ≡ inbox2 table.now.tree) }
{
    is_keyed(table, "inbox2") && are_inbox2_columns(table.columns.as_slice())
}

/// Whether an index of the file has this name and belongs to a table in this tree.
#[tactic(auto, using(crate::proofs::TermLemmas::index_is))]
fn is_key_index(index: &Index, name: &str, tree: u32) -> bool
    requires { tree < 100 }
    ensures { IsTrue result → index.now ≡ key_index name.now tree }
{
    index.name.as_slice() == name.as_bytes()
        && index.tree == tree + 1
        && index.table == tree
        && is_key(index.columns.as_slice())
        && index.order.digits == 0
        && index.is_unique
}

/// Whether table and index of a file are an inbox of version 1 in this tree, and its index.
pub(crate) fn are_inbox(table: &Table, index: &Index, tree: u32) -> bool
    requires { tree < 100 }
    ensures table { IsTrue result → table.now ≡ inbox tree }
    ensures index { IsTrue result → index.now ≡ inbox_index tree }
{
    table.tree == tree && is_inbox(table) && is_key_index(index, "sqlite_autoindex_inbox_1", tree)
}

/// Whether table and index of a file are an inbox of version 2 in this tree, and its index.
pub(crate) fn are_inbox2(table: &Table, index: &Index, tree: u32) -> bool
    requires { tree < 100 }
    ensures table { IsTrue result → table.now ≡ inbox2 tree }
    ensures index { IsTrue result → index.now ≡ inbox2_index tree }
{
    table.tree == tree && is_inbox2(table) && is_key_index(index, "sqlite_autoindex_inbox2_1", tree)
}

/// Whether the file has an inbox of our form, of either version, wherever its rows lie and whatever
/// lies beside it.
pub fn has_inbox_form(schema: &Schema) -> bool
    ensures { IsTrue result ↔ HasInboxForm schema.now.tables }
{
    for table in schema.tables.as_slice() {
        if is_inbox(table) || is_inbox2(table) {
            return true;
        }
    }
    false
}
