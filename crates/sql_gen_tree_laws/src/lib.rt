//! The out of a plan's tree stands for the tree, and its steps can be named. The functions without a body are laws.
#![tactic(auto)]

mod nodes;

pub use nodes::{trees_have_named_arms, trees_stand};
