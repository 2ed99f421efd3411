//! Laws of the steps of an optional join with a condition. Each law is the contract of a function that does nothing:
//! proofs above cite the laws, and the functions show that they are proved.
#![tactic(auto)]

mod optional;

pub use optional::{conditional_steps, match_steps, optional_steps};
