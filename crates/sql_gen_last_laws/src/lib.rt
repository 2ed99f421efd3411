//! The last SELECT of a compiled query is the ordered answer. The law is the contract of a function that does nothing:
//! proofs above cite the law, and the function shows that it is proved.
#![tactic(auto)]

mod last;

pub use last::{distinct_answers, distinct_steps, last_rows};
