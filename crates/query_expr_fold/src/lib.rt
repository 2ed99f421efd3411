//! One walk over truth expressions, from the leaves up, for every visitor.
#![tactic(auto)]

mod visitor;
mod walk;

pub use visitor::ExprFold;
pub use walk::fold_expr;
