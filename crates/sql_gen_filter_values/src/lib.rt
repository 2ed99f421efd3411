//! Value expressions as SQL: the class, number, text, and tag or datatype of what they give; and the variables of a condition.
#![tactic(auto)]

mod chain;
mod choices;
mod given;
mod start;
mod variables;
mod written;

pub use chain::{ValueChain, value_chain};
pub use choices::any_of;
pub use variables::condition_variables;
pub use written::variable_is_written;
