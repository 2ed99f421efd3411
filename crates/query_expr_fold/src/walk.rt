//! The walk over a truth expression.

ghost use Rattle.std.specs.Prelude.{IfOk, Contains};
ghost use Rattle.query_meaning.specs.declared.expression.TruthExpr.{TruthExpr};
ghost use Rattle.sql_alias_meaning.specs.Each.{Each, Keeps};

use crate::visitor::ExprFold;
use query_meaning::TruthExpr;
use std::alloc::{AllocError, Global};

/// Walks a truth expression from its leaves up. What the visitor makes of it stands for the whole expression.
#[cycle(truth)]
#[tactic(auto, using(sql_fold::proofs::Children::fit_later))]
pub fn fold_expr<V: ExprFold>(alloc: Global, v: &mut V, e: &TruthExpr) -> Result<V::Out, AllocError>
    requires { V.fits v.old e.now }
    ensures kept { Keeps (V.fits v.old) (V.fits v.new) (V.stands v.old) (V.stands v.new) }
    ensures out { IfOk result (λ x. V.stands v.old (x, e.now)) }
{
    match e {
        TruthExpr::Value(_) => v.value(alloc, e),
        TruthExpr::Bound(_) => v.bound(alloc, e),
        TruthExpr::Compare(..) => v.compare(alloc, e),
        TruthExpr::OneOf(..) => v.one_of(alloc, e),
        TruthExpr::SameTerm(..) => v.same_term(alloc, e),
        TruthExpr::Is(..) => v.is_kind(alloc, e),
        TruthExpr::Not(part) => {
            let part = fold_expr(alloc, v, part.get())?;
            v.not(alloc, e, part)
        }
        TruthExpr::All(parts) => {
            let parts = fold_parts(alloc, v, parts.as_slice())?;
            v.all(alloc, e, parts)
        }
        TruthExpr::Any(parts) => {
            let parts = fold_parts(alloc, v, parts.as_slice())?;
            v.any(alloc, e, parts)
        }
    }
}

#[cycle(truth)]
#[tactic(auto, using(sql_fold::proofs::Children::fit_at))]
fn fold_parts<V: ExprFold>(
    alloc: Global,
    v: &mut V,
    parts: &[TruthExpr],
) -> Result<Vec<V::Out>, AllocError>
    requires { (e : TruthExpr) → Contains parts.now e → V.fits v.old e }
    ensures kept { Keeps (V.fits v.old) (V.fits v.new) (V.stands v.old) (V.stands v.new) }
    ensures out { IfOk result (λ xs. Each (λ x e. V.stands v.new (x, e)) xs.items parts.now) }
{
    let mut outs = Vec::new(alloc);
    for part in parts {
        let out = fold_expr(alloc, v, part)?;
        outs.push(out)?;
    }
    Ok(outs)
}
