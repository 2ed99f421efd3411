//! The tokens of a query as the grammar sees them.
#![tactic(auto)]

mod lexing;
mod names;
mod numbers;
mod prefixes;
mod scope;
mod signs;

pub use lexing::{Lexed, lexemes};
pub use names::Names;
pub use numbers::is_long;
pub use prefixes::Prefixes;
pub use scope::{Declaring, Scope};
