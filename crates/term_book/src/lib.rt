//! The dictionary: distinct terms, numbered from 1.
#![tactic(auto)]

mod book;
mod refusal;
#[cfg(test)]
mod tests;

pub use book::{MOST_TERMS, TermBook};
pub use refusal::BookRefusal;
