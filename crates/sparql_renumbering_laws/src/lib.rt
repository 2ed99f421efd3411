//! Laws of all queries of the fragment, also of those that no text is for the limits on its bytes and its groups in all, and of
//! those whose variables are numbered in another way. Each is the contract of a function that does nothing: proofs above cite the
//! laws, and the functions show that they are proved.
#![tactic(auto)]

mod laws;

pub use laws::{limits_are_kept, patterns_are_numbered, variables_have_names};
