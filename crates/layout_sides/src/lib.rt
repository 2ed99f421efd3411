//! The two sides of a set of triples, by the ids of their terms.
#![tactic(auto)]

mod sides;

pub use sides::{IdTriple, TripleSides};
