//! Cells, schemas, tables, and how they are written: definitions.
#![tactic(auto)]

mod cell;
mod kind;
mod row_list;
mod schema;

pub use cell::{Cell, Row};
pub use kind::Kind;
pub use row_list::RowList;
pub use schema::{Column, Schema};
