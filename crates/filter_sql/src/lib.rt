//! Conditions of filters as SQL: true, false, or null for an error.
#![tactic(auto)]

mod comparisons;
mod kinds;
mod visitor;

pub use visitor::{FilterSql, filter_sql};
