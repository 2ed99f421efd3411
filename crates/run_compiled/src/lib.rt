//! From a query and the store of a run to the SQL that answers it.
#![tactic(auto)]

mod script;

pub use script::query_script;
