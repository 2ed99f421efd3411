//! Scripts of the SQL dialect whose names are places: what a script is once it is bound, and its rows.
#![tactic(auto)]

mod expression;
mod script;

pub use expression::{BoundBranch, BoundExpr};
pub use script::{BoundBody, BoundCore, BoundJoin, BoundKey, BoundScript, share_script};
