//! Binding: a script's names are found and its kinds fit, or its first fault is told.
#![tactic(auto)]

mod bodies;
mod items;
mod names;
mod refusal;
mod rest;
mod scripts;
mod selects;
mod sources;

pub use refusal::BindRefusal;
pub use scripts::bind;
pub use sql_bind_forms::Bound;
pub use sql_bind_meaning::{
    BoundBody, BoundBranch, BoundCore, BoundExpr, BoundJoin, BoundKey, BoundScript,
};
pub use sql_rows_meaning::NamedSchema;
