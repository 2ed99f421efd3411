//! Merged plans: stars of one entity become one, where none of their predicates is spilled; and how often a plan looks at a
//! primary table.
#![tactic(auto)]

mod accesses;
mod copies;
mod leaves;
mod merged;
mod places;
mod plain;
mod trees;

pub use accesses::star_count;
pub use merged::merge;
