//! What is told of a dictionary and two sides: which predicates are spilled, and the ids of given terms.
#![tactic(auto)]

mod ids;
mod laws;
mod spilled;

pub use ids::{id_of, ids_of};
pub use laws::stores_tell;
pub use spilled::spilled_among;
