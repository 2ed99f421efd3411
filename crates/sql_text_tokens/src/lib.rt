//! The tokens of a script's text.
#![tactic(auto)]

mod cut;
mod marks;
mod quotes;
mod runs;

pub use cut::tokens_of;
pub use marks::mark_text;
