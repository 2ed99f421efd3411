//! Visitors of scripts, of trees of the algebra and of expressions, and the walks that they take.
#![tactic(auto)]

mod certain;
mod references;
mod shape;
mod variables;

pub use certain::Certain;
pub use query_expr_fold::{ExprFold, fold_expr};
pub use query_tree_fold::{TreeFold, fold_tree};
pub use references::CountRefs;
pub use shape::Shape;
pub use sql_alias_renaming::{AliasPair, Rename};
pub use sql_fold::{SqlFold, fold_sql};
pub use variables::Variables;
