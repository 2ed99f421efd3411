//! The columns of a side for a bulk: as they were chosen, or with the colours of the bulk's predicates.
#![tactic(auto)]

mod columns;
mod entities;
mod graph;
mod pairs;
mod sets;

pub use columns::columns_for;
