//! Cells, schemas and sets of named tables.
#![tactic(auto)]

mod mem_tables;
mod reading;
mod table_set;
mod view;
mod writing;

pub use mem_tables::{MemTables, share_mem_tables};
pub use reading::{is_name, read_int};
pub use table_meaning::{Cell, Column, Kind, Row, RowList, Schema};
pub use table_set::TableSet;
pub use view::CellView;
pub use writing::write_cell;
