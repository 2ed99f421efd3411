//! The variables that every solution of a tree binds.
#![tactic(auto)]

mod leaf_vars;
mod patterns;
mod stars;
mod trees;

pub use leaf_vars::LeafVars;
pub use patterns::{variables, with_pattern};
pub use sparql_variables::VarSet;
pub use stars::star_certain;
pub use trees::certain;
