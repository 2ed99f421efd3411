//! Terms of RDF: their classes, values and order, and how they are written.
#![tactic(auto)]

mod comparing;
mod moment;
mod number;
#[cfg(test)]
mod tests;
mod value;

pub use comparing::{order, order_of_values, order_places};
pub use rdf_meaning::{KnownDatatype, SideName, Term, TermId, TermKind, Text, Triple, text_of};
pub use rdf_spelling::{are_digits, is_digit, write_term, write_text};
pub use value::{class_of, has_value, number_of};
