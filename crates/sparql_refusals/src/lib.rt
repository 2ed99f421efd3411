//! Why and where a text is refused as a query, and the laws of these refusals.
#![tactic(auto)]

mod features;
mod laws;
mod places;

pub use laws::{queries_are_not_refused, refusals_are_unique};
pub use places::{faulty_at, read_front, refused};
pub use sparql_meaning::Feature;
pub use sparql_query_meaning::{QueryLimit, QueryRefusal};
