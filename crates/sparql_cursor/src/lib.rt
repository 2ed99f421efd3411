//! The tokens of a query in front of a reader, and what a reader of the grammar answers.
#![tactic(auto)]

mod ahead;
mod cursor;
mod refusal;

pub use ahead::{iri_ahead, key_ahead, other_ahead, term_ahead, verb_ahead};
pub use cursor::{after_sign, after_variable, next};
pub use refusal::Refusal;
