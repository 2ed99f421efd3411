//! Aliases renamed, and the law that rows stay the same.
#![tactic(auto)]

mod scripts;

pub use scripts::renamed_scripts_mean_the_same;
