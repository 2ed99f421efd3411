//! The schemas of the five tables.
#![tactic(auto)]

mod schemas;

pub use schemas::{list_schema, primary_schema, term_schema};
