//! Keys of joins.

ghost use Rattle.std.specs.Prelude.{◌≡◌, IfSome, IsTrue};
ghost use Rattle.sql_engine_joins.specs.Keys.{IsEarlier, IsColumn, IsKeyOf, IsKeyOfAll};

use sql_bind_meaning::BoundExpr;

/// A column of the new source of a join, and an expression over the sources before it, which are equal wherever the condition
/// of the join is true.
#[derive(Drop)]
pub(crate) struct JoinKey<'a> {
    pub(crate) column: usize,
    pub(crate) other: &'a BoundExpr,
}

// The column of the new source that an expression is, if it is one.
#[tactic(auto, using(crate::proofs::KeyLaws::new_column))]
fn new_column(expression: &BoundExpr, new: usize) -> Option<usize>
    ensures { IfSome result (λ column. IsColumn new expression.now column) }
{
    match expression {
        BoundExpr::Cell(source, column) if *source == new => Some(*column),
        _ => None,
    }
}

// Whether an expression is a column of a source before the new one, or a constant, where these are taken.
#[tactic(auto, using(crate::proofs::KeyLaws::earlier_column, crate::proofs::KeyLaws::earlier_int, crate::proofs::KeyLaws::earlier_text))]
fn is_earlier(expression: &BoundExpr, new: usize, constants: bool) -> bool
    ensures { IsTrue result → IsEarlier new expression.now }
{
    match expression {
        BoundExpr::Cell(source, _) => *source < new,
        BoundExpr::Int(_) | BoundExpr::Text(_) => constants,
        _ => false,
    }
}

// The key of an equality, which a column of the new source is on its one side.
fn one_way<'a>(
    side: &BoundExpr,
    other: &'a BoundExpr,
    new: usize,
    constants: bool,
) -> Option<JoinKey<'a>>
    ensures column { IfSome result (λ key. IsColumn new side.now key.column) }
    ensures other { IfSome result (λ key. (key.other.now ≡ other.now) × IsEarlier new other.now) }
{
    match new_column(side, new) {
        Some(column) if is_earlier(other, new, constants) => Some(JoinKey { column, other }),
        _ => None,
    }
}

// The key of a condition that is an equality.
#[tactic(auto, using(crate::proofs::KeyLaws::key_of_equality, crate::proofs::KeyLaws::key_of_turned))]
fn equality_key<'a>(condition: &'a BoundExpr, new: usize, constants: bool) -> Option<JoinKey<'a>>
    ensures { IfSome result (λ key. IsKeyOf new condition.now key.column key.other.now) }
{
    match condition {
        BoundExpr::Equal(a, b) => match one_way(a.get(), b.get(), new, constants) {
            Some(key) => Some(key),
            None => one_way(b.get(), a.get(), new, constants),
        },
        _ => None,
    }
}

// The first key among the members of an AND.
fn first_key<'a>(members: &'a [BoundExpr], new: usize, constants: bool) -> Option<JoinKey<'a>>
    ensures { IfSome result (λ key. IsKeyOfAll new members.now key.column key.other.now) }
{
    for member in members {
        if let Some(key) = equality_key(member, new, constants) {
            return Some(key);
        }
    }
    None
}

/// The key of a condition over a new source with this number: the first equality of a column of the new source and one of an
/// earlier source in its outermost AND, and only where none stands, the first of a column and a constant.
#[tactic(auto, using(crate::proofs::KeyLaws::key_of_all))]
pub(crate) fn key_of<'a>(condition: &'a BoundExpr, new: usize) -> Option<JoinKey<'a>>
    ensures { IfSome result (λ key. IsKeyOf new condition.now key.column key.other.now) }
{
    match condition {
        BoundExpr::All(members) => match first_key(members.as_slice(), new, false) {
            Some(key) => Some(key),
            None => first_key(members.as_slice(), new, true),
        },
        _ => equality_key(condition, new, true),
    }
}
