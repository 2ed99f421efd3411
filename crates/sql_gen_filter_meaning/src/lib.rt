//! SQL for the conditions of filters, over four columns for the term of each variable: `cls`, `num`, `txt` and `aux`.
#![tactic(auto)]

mod given;

pub use given::{Accepted, Given, SourceText};
