//! One walk over scripts, from the leaves up, for every visitor.
#![tactic(auto)]

mod visitor;
mod walk;

pub use visitor::SqlFold;
pub use walk::fold_sql;
