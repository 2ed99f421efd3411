//! The last SELECT of a compiled query, whose rows are read as the answer, and the step of DISTINCT before it. Rows are
//! sorted by the class, value, text, and tag or datatype of the keys' terms, and then of the shown ones.
#![tactic(auto)]

mod keys;
mod last;
mod shown;

pub use last::{Solutions, distinct_core, is_distinct_first, last_core, repeated_core};
