//! Steps behind steps bind. The functions without a body are laws.
#![tactic(auto)]

mod chains;

pub use chains::{further_steps_bind, scripts_of_steps_bind};
