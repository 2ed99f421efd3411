//! Value lists: lists of at least two distinct values under negative ids.
#![tactic(auto)]

mod lists;
mod values;

pub use lists::{ListRefusal, Lists, Put, TakeOut};
