//! Laws of form of the compiler's SELECTs: over steps and a table of terms they bind, and their columns are those of a
//! step. Each law is the contract of a function that does nothing: proofs above cite the laws, and the functions show
//! that they are proved.
#![tactic(auto)]

mod binding;

pub use binding::{filter_binds, join_binds, union_binds};
