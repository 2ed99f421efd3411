//! Laws of steps behind steps. The functions without a body are laws.
#![tactic(auto)]

mod chains;

pub use chains::{both_sides_go_on, one_side_goes_on};
