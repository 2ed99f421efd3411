//! A file of tables and SQL, read and run.
#![tactic(auto)]

mod parts;
mod run;
mod work;

pub use work::script_text;
