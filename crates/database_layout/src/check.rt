//! The CHECKs of a table, as the schema has them.

ghost use Rattle.std.specs.Prelude.{◌≡◌, ◌∷◌, [], ℕ, suc, pos, IsTrue, IfSome};
ghost use Rattle.sqlite_value.specs.declared.value.Value.TheVariants.{Int};
ghost use Rattle.sqlite_value.specs.declared.keys.Collation.TheVariants.{Binary};
ghost use Rattle.sqlite_sql.specs.Term.{lit, col, op2};
ghost use Rattle.sqlite_sql.specs.declared.ops.BinaryOp.TheVariants.{Compare};
ghost use Rattle.sqlite_schema.specs.Code.{term_to};
ghost use Rattle.database_layout.specs.Tables.{is_status, service};

use sqlite_schema::code::{Op, Terms};
use sqlite_sql::ops::{BinaryOp, CompareOp};
use sqlite_value::keys::Collation;
use sqlite_value::value::Value;

/// Whether the term at a place of a CHECK is a column of the row.
fn is_place(ops: &[Op], at: usize, place: usize) -> bool
    ensures { IsTrue result → (depth : ℕ) → term_to ops.now (suc depth) at ≡ col 1 place }
{
    match ops.get(at) {
        Some(Op::Column(slot, found)) => *slot == 1 && *found == place,
        _ => false,
    }
}

/// Whether the term at a place of a CHECK is a whole number.
fn is_number(ops: &[Op], at: usize, number: i64) -> bool
    ensures { IsTrue result → (depth : ℕ) → term_to ops.now (suc depth) at ≡ lit (Int number) }
{
    match ops.get(at) {
        Some(Op::Literal(Value::Int(found))) => *found == number,
        _ => false,
    }
}

/// A node with two operands, by their places.
#[derive(Clone, Copy)]
struct Operands {
    op: BinaryOp,
    left: usize,
    right: usize,
}

/// The operands of the term at a place of a CHECK, where it has two.
fn binary_at(ops: &[Op], at: usize) -> Option<Operands>
    ensures { IfSome result (λ n. (depth : ℕ) → term_to ops.now (suc depth) at
        ≡ op2 n.op (term_to ops.now depth n.left) (term_to ops.now depth n.right)) }
{
    match ops.get(at) {
        Some(Op::Binary(op, left, right)) => Some(Operands {
            op: *op,
            left: *left,
            right: *right,
        }),
        _ => None,
    }
}

/// The one place in a list of terms of a CHECK.
fn single(places: &[usize]) -> Option<usize>
    ensures { IfSome result (λ at. places.now ≡ at ∷ []) }
{
    match places {
        [at] => Some(*at),
        _ => None,
    }
}

/// The two places in a list of terms of CHECKs.
fn pair(places: &[usize]) -> Option<(usize, usize)>
    ensures { IfSome result (λ p. places.now ≡ p.0 ∷ p.1 ∷ []) }
{
    match places {
        [first, second] => Some((*first, *second)),
        _ => None,
    }
}

/// Whether the term at a place of a CHECK compares a column with a number.
fn is_compare(ops: &[Op], at: usize, op: CompareOp, place: usize, number: i64) -> bool
    ensures { IsTrue result → (depth : ℕ) → term_to ops.now (suc (suc depth)) at
        ≡ op2 (Compare op Binary) (col 1 place) (lit (Int number)) }
{
    let Some(node) = binary_at(ops, at) else {
        return false;
    };
    if node.op != BinaryOp::Compare(op, Collation::Binary) {
        return false;
    }
    if !is_place(ops, node.left, place) {
        return false;
    }
    is_number(ops, node.right, number)
}

/// Whether the term at a place of a CHECK says that a column holds 1, 2 or 3.
fn is_status(ops: &[Op], at: usize, place: usize) -> bool
    ensures { IsTrue result → (depth : ℕ) → term_to ops.now (suc (suc (suc depth))) at
        ≡ is_status place }
{
    let Some(node) = binary_at(ops, at) else {
        return false;
    };
    if node.op != BinaryOp::And {
        return false;
    }
    if !is_compare(ops, node.left, CompareOp::Ge, place, 1) {
        return false;
    }
    is_compare(ops, node.right, CompareOp::Le, place, 3)
}

/// Whether the one CHECK of a table says that the second column holds 1, 2 or 3.
pub(crate) fn checks_status(terms: &Terms) -> bool
    ensures { IsTrue result → terms.now ≡ is_status 2 ∷ [] }
{
    let Some(at) = single(terms.roots.as_slice()) else {
        return false;
    };
    let ops = terms.nodes.as_slice();
    if ops.len() < 3 {
        return false;
    }
    is_status(ops, at, 2)
}

/// Whether the two CHECKs of a table are those of `service`.
pub(crate) fn checks_service(terms: &Terms) -> bool
    ensures { IsTrue result → terms.now ≡ (service 0).checks }
{
    let Some((one, base)) = pair(terms.roots.as_slice()) else {
        return false;
    };
    let ops = terms.nodes.as_slice();
    if ops.len() < 3 {
        return false;
    }
    if !is_compare(ops, one, CompareOp::Eq, 0, 1) {
        return false;
    }
    is_compare(ops, base, CompareOp::Ge, 3, 0)
}
