//! Scripts that were bound: their placed form, the columns of their rows, and the tables that they read.
#![tactic(auto)]

mod bound;

pub use bound::Bound;
