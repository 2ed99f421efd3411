//! The script of an out: its numbered steps under their names, and the last SELECT behind them.
#![tactic(auto)]

mod bodies;
mod names;
mod scripts;
mod written;

pub use scripts::script;
pub use written::steps;
