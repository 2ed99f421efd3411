//! Queries of the algebra: their types, their translation from what is written, their constants, sets of variables, and the
//! variables that every solution binds.
#![tactic(auto)]

pub use query_meaning::{
    CompareOp, Element, Group, Key, Modifiers, Pattern, Query, Slot, Syntax, TermTest, Tree,
    TruthExpr, ValueExpr, VarId,
};
pub use sparql_certain::{LeafVars, certain};
pub use sparql_constants::constants;
pub use sparql_translation::translate;
pub use sparql_variables::VarSet;
