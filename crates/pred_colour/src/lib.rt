//! Interference of predicates and their greedy colouring.
#![tactic(auto)]

mod colouring;
mod colours;
mod graph;
mod places;
mod predicates;
mod rows;
mod turns;

pub use colouring::colour;
pub use colours::Coloured;
pub use graph::{EntityPreds, Graph, interference};
