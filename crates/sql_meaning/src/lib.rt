//! The SQL dialect: its scripts as data, their depth and their text.
#![tactic(auto)]

mod expression;
mod script;
mod token;

pub use expression::{Branch, SqlExpr};
pub use script::{Body, Core, Item, JoinTo, Script, Source, SqlKey, Step};
pub use token::{Mark, Opening, Placed, Separator, Token};
