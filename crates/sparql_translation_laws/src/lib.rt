//! Laws of the translation of groups. Each is the contract of a function that does nothing: proofs above cite the laws, and
//! the functions show that they are proved.
#![tactic(auto)]

mod patterns;

pub use patterns::parts_add_their_patterns;
