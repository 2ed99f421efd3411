//! The steps of a compiled query with numbers in place of names: what each is under a naming, and which namings keep
//! numbers apart. The functions without a body are laws.
#![tactic(auto)]

mod numbered;
mod steps;

pub use numbered::NumberedBody;
pub use steps::{
    decimal_names_are_apart, decimal_names_are_names, shifted_steps_are_steps_further_on,
};
