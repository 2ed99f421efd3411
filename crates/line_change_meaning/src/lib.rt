//! Changes of triples, and which triples are present after them: definitions.
#![tactic(auto)]

mod change;

pub use change::Change;
