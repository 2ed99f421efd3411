//! Classes and values of terms, and their order: definitions.
#![tactic(auto)]

mod form;

pub use form::{Form, Range};
