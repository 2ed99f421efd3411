//! Colouring files: from bytes to the columns of predicates.
#![tactic(auto)]

mod colours;
mod line;
mod places;
mod reader;

pub use colours::ColourLine;
pub use reader::read_colouring;
