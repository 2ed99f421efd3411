//! The canonical spelling of a script: how it is made of pieces, and that it spells the script.
#![tactic(auto)]

mod laws;

pub use laws::{canonical_spellings_are_pieces, writable_scripts_are_spelled};
