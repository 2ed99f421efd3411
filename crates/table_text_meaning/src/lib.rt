//! How tables are written as text, in two versions, and which line of a text is the first bad one: definitions.
#![tactic(auto)]

mod version;

pub use version::Version;
