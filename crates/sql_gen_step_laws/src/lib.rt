//! Laws of the steps of a compiled query: the SELECTs that stand for the nodes of a tree, over rows that carry
//! solutions. Each law is the contract of a function that does nothing: proofs above cite the laws, and the functions
//! show that they are proved.
#![tactic(auto)]

mod steps;

pub use steps::{join_steps, left_join_steps, union_steps};
