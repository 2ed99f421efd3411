//! SQL scripts, their depth and their primary references.
#![tactic(auto)]

mod levels;
mod references;

pub use levels::depth;
pub use references::primary_refs;
pub use sql_meaning::{Body, Branch, Core, Item, JoinTo, Script, Source, SqlExpr, SqlKey, Step};
