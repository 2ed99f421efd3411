//! The SELECTs of a star: one step that reads the primary table, and one step for each arm; what is asked of each
//! place, and the partial solutions that these steps hold, by the ids of their terms.
#![tactic(auto)]

mod arm;

pub use arm::{Asked, StarArm};
