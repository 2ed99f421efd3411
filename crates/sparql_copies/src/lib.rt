//! Equal copies of the parts of a query.
#![tactic(auto)]

mod expressions;
mod modifiers;
mod patterns;

pub use expressions::{copy_truth, copy_value};
pub use modifiers::{copy_modifiers, copy_names};
pub use patterns::{copy_pattern, copy_patterns, copy_slot};
