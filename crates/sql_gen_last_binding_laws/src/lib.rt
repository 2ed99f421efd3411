//! The last SELECT of a compiled query binds, and so does the step of DISTINCT before it. Each law is the contract of a
//! function that does nothing: proofs above cite the laws, and the functions show that they are proved.
#![tactic(auto)]

mod last;

pub use last::{distinct_binds, last_binds, shown_are_few};
