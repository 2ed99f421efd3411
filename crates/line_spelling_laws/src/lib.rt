//! Laws of spelling: what is written is read again.
#![tactic(auto)]

mod laws;

pub use laws::{spelled_terms_are_read, spelled_triples_are_read};
