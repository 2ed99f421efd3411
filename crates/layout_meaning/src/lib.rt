//! What the hashed layout means: candidate columns, the rows and lists of a side, and its steps.
#![tactic(auto)]

mod value;

pub use value::Value;
