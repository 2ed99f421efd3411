//! The text of the tables of changes and of the script of a query over them.
#![tactic(auto)]

mod shown;
mod work;

pub use work::show_text;
