//! The last SELECT of a compiled query has a text and isn't deep, and so does the step of DISTINCT before it; neither
//! reads a primary table. Each law is the contract of a function that does nothing: proofs above cite the laws, and the
//! functions show that they are proved.
#![tactic(auto)]

mod last;

pub use last::{distinct_fits, last_fits};
