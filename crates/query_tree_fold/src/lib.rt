//! One walk over trees of the algebra, from the leaves up, for every visitor.
#![tactic(auto)]

mod visitor;
mod walk;

pub use visitor::TreeFold;
pub use walk::fold_tree;
