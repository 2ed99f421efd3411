//! What a query of the fragment is made of: its tokens and the cut of a text into them, and its translation.
#![tactic(auto)]

mod gathered;
mod tag;
mod token;
mod word;

pub use gathered::Gathered;
pub use tag::LanguageTag;
pub use token::{Body, Escape, Found, Mark, Quoting, Token, TokenKind};
pub use word::{Feature, Word};
