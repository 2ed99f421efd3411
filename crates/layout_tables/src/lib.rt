//! The five tables of a store, which show its dictionary and its sides.
#![tactic(auto)]

mod cells;
mod table;
mod tables;
mod term_row;

pub use tables::{Tables, share_tables, tables_of};
