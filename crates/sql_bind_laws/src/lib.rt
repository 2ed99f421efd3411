//! The place of each name of a script, and the law that places and names give the same rows.
#![tactic(auto)]

mod rows;

pub use rows::placed_scripts_mean_the_same;
