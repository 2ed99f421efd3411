//! The triples that are present after changes, held as triples of ids over a dictionary of terms.
#![tactic(auto)]

mod ids;
mod refusal;
mod triples;

pub use refusal::LoadRefusal;
pub use triples::{MOST_TRIPLES, PlainTriples, load};
