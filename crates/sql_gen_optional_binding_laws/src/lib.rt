//! Laws of form of the two SELECTs of an optional join with a condition: they bind. Each law is the contract of a function
//! that does nothing: proofs above cite the laws, and the functions show that they are proved.
#![tactic(auto)]

mod binding;

pub use binding::{matches_bind, optional_binds};
