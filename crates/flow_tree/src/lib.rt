//! The flow of a leaf: which of its patterns is looked up when and how, taken greedily by cost.
#![tactic(auto)]

mod choice;
mod costs;
mod least;
mod order;

pub use choice::Choice;
pub use order::{choices, flow};
pub use query_flow_meaning::{FlowStep, Method};
