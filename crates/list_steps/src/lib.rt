//! Steps on lists: the first of equal items, and what a stable sort by a closure gives.
#![tactic(auto)]

mod firsts;

pub use firsts::first_items;
