//! What stands in brackets.

ghost use Rattle.std.specs.Prelude.{◌≡◌};
ghost use Rattle.sparql_conditions.specs.Operands.{as_truth};

use query_meaning::{TruthExpr, ValueExpr};

/// A value, or a truth that is none.
#[derive(Debug, Drop)]
pub(crate) enum Operand {
    Value(ValueExpr),
    Truth(TruthExpr),
}

/// The operand as a truth.
pub(crate) fn into_truth(operand: Operand) -> TruthExpr
    ensures { result ≡ as_truth operand }
{
    match operand {
        Operand::Value(x) => TruthExpr::Value(x),
        Operand::Truth(x) => x,
    }
}
