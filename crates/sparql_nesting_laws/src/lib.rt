//! How deep a query nests, by the grammar: in its expressions as many brackets and `!` are open at once as the limits count along its
//! text, and as many groups; and what the limits refuse is what nests deeper.
#![tactic(auto)]

mod laws;

pub use laws::{depth_limits_are_exact, depths_are_exact};
