//! What is counted of the triples of a dictionary and two sides.
#![tactic(auto)]

mod counts;
mod laws;

pub use counts::counts_of;
pub use laws::stores_count;
