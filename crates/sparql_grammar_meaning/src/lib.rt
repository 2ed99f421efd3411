//! The grammar of the queries that are read, over tokens with their variables numbered and their IRIs resolved.
#![tactic(auto)]

mod lexeme;

pub use lexeme::{Function, Lexeme, Sign};
