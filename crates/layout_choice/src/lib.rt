//! How the columns of a store are chosen.
#![tactic(auto)]

mod choice;
mod laws;
mod pairs;

pub use choice::{ColourWay, LayoutChoice};
pub use laws::colours_that_fit_are_taken;
