//! What a query means: its types, its solutions, and its answer in order and as text.
#![tactic(auto)]

mod expression;
mod modifiers;
mod pattern;
mod query;
mod tree;
mod variable;

pub use expression::{CompareOp, TermTest, TruthExpr, ValueExpr};
pub use modifiers::{Key, Modifiers};
pub use pattern::{Pattern, Slot};
pub use query::{Element, Group, Query, Syntax};
pub use tree::Tree;
pub use variable::VarId;
