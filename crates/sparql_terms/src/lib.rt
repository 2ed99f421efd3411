//! Readers of the terms and triples of a query.
#![tactic(auto)]

mod objects;
mod terms;
mod triples;

pub use terms::{read_iri, read_literal};
pub use triples::read_triples;
