//! Tables as text, written and read.
#![tactic(auto)]

mod fields;
mod heads;
mod labels;
mod laws;
mod lines;
mod names;
mod quoted;
mod refusal;
mod rows;
mod table;
mod tables;
mod writer;

pub use laws::{tables_read_are_plain, texts_have_one_outcome};
pub use refusal::TableRefusal;
pub use tables::{ReadTables, read_tables};
pub use writer::write_tables;
