//! What a script of the SQL dialect means: its rows, and its binding.
#![tactic(auto)]

mod fault;
mod schema;

pub use fault::{Fault, FaultKind};
pub use schema::NamedSchema;
