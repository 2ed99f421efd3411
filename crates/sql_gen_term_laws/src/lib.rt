//! Laws of the steps of a compiled query that look at terms, over a table of terms. Each law is the contract of a
//! function that does nothing: proofs above cite the laws, and the functions show that they are proved.
#![tactic(auto)]

mod filters;

pub use filters::filter_steps;
