//! Laws of tables as text: what is written for tables is read as these tables.
#![tactic(auto)]

mod laws;

pub use laws::{written_tables_are_read, written_tables_are_read_back};
