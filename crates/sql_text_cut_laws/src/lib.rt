//! Laws of the cut of a script's text into tokens.
#![tactic(auto)]

mod laws;

pub use laws::{spelled_texts_dont_break, texts_have_one_cut};
