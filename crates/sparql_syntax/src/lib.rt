//! From what the grammar reads to a query as it is written: patterns are numbered, and the shown variables are told.
#![tactic(auto)]

mod numbering;
mod shown;
mod whole;

pub use whole::syntax;
