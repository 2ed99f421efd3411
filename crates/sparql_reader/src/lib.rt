//! Queries of the fragment, read from their text.
#![tactic(auto)]

mod queries;
mod reading;

pub use queries::read_query;
pub use reading::read_syntax;
pub use sparql_meaning::Feature;
pub use sparql_query_meaning::{QueryLimit, QueryRefusal};
