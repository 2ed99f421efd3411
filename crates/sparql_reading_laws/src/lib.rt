//! A law of the grammar of queries: a text is one query of the fragment at most.
#![tactic(auto)]

mod laws;

pub use laws::texts_are_one_query;
