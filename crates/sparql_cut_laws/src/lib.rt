//! Laws of what the cutter of queries answers: it is the one cut by longest tokens, or the first bad place.
#![tactic(auto)]

mod laws;

pub use laws::{answers_are_cuts, cuts_are_answered};
