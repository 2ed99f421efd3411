//! Copies of expressions.

ghost use Rattle.std.specs.Prelude.{◌≡◌, IfOk};

use query_meaning::{TruthExpr, ValueExpr};
use sqlite_items::{Boxed, Items};
use std::alloc::{AllocError, Global};

/// An equal value expression.
pub fn copy_value(alloc: Global, e: &ValueExpr) -> Result<ValueExpr, AllocError>
    ensures { IfOk result (λ x. x ≡ e.now) }
{
    match e {
        ValueExpr::Var(v) => Ok(ValueExpr::Var(*v)),
        ValueExpr::Const(term) => Ok(ValueExpr::Const(term.copy(alloc)?)),
        ValueExpr::Str(inner) => {
            let copy = copy_value(alloc, inner.get())?;
            Ok(ValueExpr::Str(Boxed::new(alloc, copy)?))
        }
        ValueExpr::Lang(inner) => {
            let copy = copy_value(alloc, inner.get())?;
            Ok(ValueExpr::Lang(Boxed::new(alloc, copy)?))
        }
        ValueExpr::Datatype(inner) => {
            let copy = copy_value(alloc, inner.get())?;
            Ok(ValueExpr::Datatype(Boxed::new(alloc, copy)?))
        }
    }
}

fn copy_values(alloc: Global, es: &[ValueExpr]) -> Result<Items<ValueExpr>, AllocError>
    ensures { IfOk result (λ xs. xs ≡ es.now) }
{
    let mut copies = Items::new(alloc);
    for e in es {
        let copy = copy_value(alloc, e)?;
        copies.push(copy)?;
    }
    Ok(copies)
}

/// An equal truth expression.
#[cycle(copies)]
pub fn copy_truth(alloc: Global, e: &TruthExpr) -> Result<TruthExpr, AllocError>
    ensures { IfOk result (λ x. x ≡ e.now) }
{
    match e {
        TruthExpr::Value(a) => Ok(TruthExpr::Value(copy_value(alloc, a)?)),
        TruthExpr::Bound(v) => Ok(TruthExpr::Bound(*v)),
        TruthExpr::Compare(op, a, b) => {
            let left = copy_value(alloc, a)?;
            let right = copy_value(alloc, b)?;
            Ok(TruthExpr::Compare(*op, left, right))
        }
        TruthExpr::OneOf(a, es) => {
            let first = copy_value(alloc, a)?;
            let others = copy_values(alloc, es.as_slice())?;
            Ok(TruthExpr::OneOf(first, others))
        }
        TruthExpr::SameTerm(a, b) => {
            let left = copy_value(alloc, a)?;
            let right = copy_value(alloc, b)?;
            Ok(TruthExpr::SameTerm(left, right))
        }
        TruthExpr::Is(test, a) => Ok(TruthExpr::Is(*test, copy_value(alloc, a)?)),
        TruthExpr::Not(part) => {
            let copy = copy_truth(alloc, part.get())?;
            Ok(TruthExpr::Not(Boxed::new(alloc, copy)?))
        }
        TruthExpr::All(parts) => Ok(TruthExpr::All(copy_truths(alloc, parts.as_slice())?)),
        TruthExpr::Any(parts) => Ok(TruthExpr::Any(copy_truths(alloc, parts.as_slice())?)),
    }
}

#[cycle(copies)]
fn copy_truths(alloc: Global, es: &[TruthExpr]) -> Result<Items<TruthExpr>, AllocError>
    ensures { IfOk result (λ xs. xs ≡ es.now) }
{
    let mut copies = Items::new(alloc);
    for e in es {
        let copy = copy_truth(alloc, e)?;
        copies.push(copy)?;
    }
    Ok(copies)
}
