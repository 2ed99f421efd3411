//! Reader of the groups of a query.
#![tactic(auto)]

mod groups;
mod parts;

pub use groups::read_group;
