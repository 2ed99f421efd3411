//! What RDF means: terms and triples, their numbers, and their spelling.
#![tactic(auto)]

mod id;
mod kind;
mod side;
mod term;
mod text;

pub use id::TermId;
pub use kind::TermKind;
pub use side::SideName;
pub use term::{Term, Triple};
pub use text::{KnownDatatype, Text, text_of};
