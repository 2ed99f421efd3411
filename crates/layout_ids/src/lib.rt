//! The ids of the terms of a triple in a dictionary.
#![tactic(auto)]

mod noted;

pub use noted::{find, has_forms, note};
