//! What the flow of a leaf is: in which order and by which method its patterns are looked up; and the plan that follows it.
#![tactic(auto)]

mod step;

pub use step::{FlowStep, Method};
