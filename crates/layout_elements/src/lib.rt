//! The elements of the lists of a side, in the order of the table of lists.
#![tactic(auto)]

mod in_order;

pub use in_order::{Element, elements};
