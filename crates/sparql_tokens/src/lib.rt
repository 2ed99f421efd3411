//! The tokens of a query.
#![tactic(auto)]

mod classes;
mod cutting;
mod escapes;
mod marks;
mod names;
mod numbers;
mod place;
mod quoted;
mod runs;
mod words;

pub use cutting::{TokenRefusal, tokens};
pub use sparql_meaning::{Feature, LanguageTag, Mark, Token, TokenKind, Word};
