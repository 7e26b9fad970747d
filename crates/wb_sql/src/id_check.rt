//! Whether an expression is the check of the office's table, that the id of a row is 1.
ghost use Rattle.std.specs.Prelude.{◌≡◌, ◌↔◌, IsTrue, Some, ◌∷◌, slice_get, pos};
ghost use Rattle.sqlite_schema.specs.Code.{term_in};
ghost use Rattle.wb_sql.specs.Tables.{office};
ghost use Rattle.wb_sql.specs.Recognition.{id_is_one, ComparesIdWithOne};

use sqlite_schema::code::{Op, Terms};
use sqlite_sql::ops::{BinaryOp, CompareOp};
use sqlite_value::keys::Collation;
use sqlite_value::value::Value;

/// Whether the one expression is that the id of a row is 1.
pub(crate) fn is_id_check(terms: &Terms) -> bool
    ensures value { IsTrue result ↔ (terms.now ≡ office.checks) }
{
    match terms.roots.as_slice() {
        [root] => is_equal_to_one(terms.nodes.as_slice(), *root),
        _ => false,
    }
}

/// Whether the expression of the node is that the id of a row is 1. It has two nodes below it, which are two places.
fn is_equal_to_one(nodes: &[Op], root: usize) -> bool
    ensures value { IsTrue result ↔ (term_in nodes.now root ≡ id_is_one) }
{
    nodes.len() >= 2 && compares_id_with_one(nodes, root)
}

/// Whether the node compares a node of the id with one of the number 1.
fn compares_id_with_one(nodes: &[Op], root: usize) -> bool
    ensures value { IsTrue result ↔ ComparesIdWithOne nodes.now root }
{
    match nodes.get(root) {
        Some(Op::Binary(op, id, one)) => {
            *op == BinaryOp::Compare(CompareOp::Eq, Collation::Binary)
                && is_id(nodes, *id)
                && is_one(nodes, *one)
        }
        _ => false,
    }
}

/// Whether the node is the id of a row.
fn is_id(nodes: &[Op], at: usize) -> bool
    ensures value { IsTrue result ↔ (slice_get nodes.now at ≡ Some (Op.Column 1 0)) }
{
    match nodes.get(at) {
        Some(Op::Column(slot, place)) => *slot == 1 && *place == 0,
        _ => false,
    }
}

/// Whether the node is the number 1.
fn is_one(nodes: &[Op], at: usize) -> bool
    ensures value { IsTrue result ↔ (slice_get nodes.now at ≡ Some (Op.Literal (Value.Int (pos 1)))) }
{
    match nodes.get(at) {
        Some(Op::Literal(Value::Int(number))) => *number == 1,
        _ => false,
    }
}
