//! The SELECTs of Join, LeftJoin, Union and Filter over the steps of their parts, and the one of a group without
//! patterns. A step's rows carry solutions: a column of ones, and one for each variable, with the id of its term or null.
#![tactic(auto)]

mod exprs;
mod filters;
mod items;
mod joins;
mod names;
mod optional;
mod variables;

pub use filters::{Condition, filter_core, term_joins};
pub use items::{ones, own_items};
pub use joins::{Carrier, first_source, join_core, single_core, union_body};
pub use names::term_alias;
pub use optional::{optional_body, pairs_core, passed_core};
pub use variables::{both, has};
