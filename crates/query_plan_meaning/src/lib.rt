//! What a plan means: its types, the solutions of its stars, and which plans come from a query.
#![tactic(auto)]

mod plan;
mod star;

pub use plan::Plan;
pub use star::{Arm, Star, StarBody};
