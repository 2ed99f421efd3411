//! The visitor that gives the aliases of a script new names.
#![tactic(auto)]

mod names;
mod parts;
mod rename;

pub use names::AliasPair;
pub use rename::Rename;
