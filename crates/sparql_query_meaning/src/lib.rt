//! What a query of the fragment is: its tokens as the grammar sees them, its limits, and its refusals by name and place.
#![tactic(auto)]

mod refusal;

pub use refusal::{QueryLimit, QueryRefusal};
