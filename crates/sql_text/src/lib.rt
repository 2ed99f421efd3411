//! The text of scripts, read and written.
#![tactic(auto)]

mod read;
mod refusal;
mod script;

pub use read::read_sql;
pub use refusal::SqlRefusal;
pub use sql_text_writer::write_sql;
