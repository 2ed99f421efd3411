//! The variables of a condition.

ghost use Rattle.std.specs.Prelude.{◌≡◌, ◌||◌, ℕ, IfOk};
ghost use Rattle.std.specs.List.{list_any};
ghost use Rattle.sparql_variables.specs.Bits.{members};
ghost use Rattle.sql_gen_filter_meaning.specs.ConditionVariables.{value_variables, truth_variables, condition_variables};

use query_meaning::{TruthExpr, ValueExpr, VarId};
use sparql_variables::VarSet;
use std::alloc::{AllocError, Global};

// The set with the variables of a value besides.
fn with_value(set: VarSet, e: &ValueExpr) -> VarSet
    ensures { (w : ℕ) → members result w ≡ (members set w || value_variables e.now w) }
{
    match e {
        ValueExpr::Var(v) => set.with(*v),
        ValueExpr::Const(_) => set,
        ValueExpr::Str(part) | ValueExpr::Lang(part) | ValueExpr::Datatype(part) => {
            with_value(set, part.get())
        }
    }
}

// The set with the variables of values besides.
fn with_values(mut set: VarSet, es: &[ValueExpr]) -> VarSet
    ensures { (w : ℕ) → members result w ≡ (members set w || list_any (λ e. value_variables e w) es.now) }
{
    for e in es {
        set = with_value(set, e);
    }
    set
}

// The set with the variables of an expression besides.
#[cycle(truth)]
#[tactic(auto, using(crate::proofs::Sets::set_laws))]
fn with_truth(set: VarSet, e: &TruthExpr) -> VarSet
    ensures { (w : ℕ) → members result w ≡ (members set w || truth_variables e.now w) }
{
    match e {
        TruthExpr::Bound(v) => set.with(*v),
        TruthExpr::Value(value) | TruthExpr::Is(_, value) => with_value(set, value),
        TruthExpr::Compare(_, left, right) => with_value(with_value(set, left), right),
        TruthExpr::SameTerm(left, right) => with_value(with_value(set, left), right),
        TruthExpr::OneOf(value, others) => with_values(with_value(set, value), others.as_slice()),
        TruthExpr::Not(part) => with_truth(set, part.get()),
        TruthExpr::All(parts) => with_truths(set, parts.as_slice()),
        TruthExpr::Any(parts) => with_truths(set, parts.as_slice()),
    }
}

#[cycle(truth)]
fn with_truths(mut set: VarSet, es: &[TruthExpr]) -> VarSet
    ensures { (w : ℕ) → members result w ≡ (members set w || list_any (λ e. truth_variables e w) es.now) }
{
    for e in es {
        set = with_truth(set, e);
    }
    set
}

/// The variables of a condition, each once, by rising number.
pub fn condition_variables(alloc: Global, e: &TruthExpr) -> Result<Vec<VarId>, AllocError>
    ensures { IfOk result (λ vs. vs.items ≡ condition_variables e.now) }
{
    let set = with_truth(VarSet::empty(), e);
    let mut variables = Vec::new(alloc);
    for number in 0..64 {
        let v = VarId::new(number);
        if set.has(v) {
            variables.push(v)?;
        }
    }
    Ok(variables)
}
