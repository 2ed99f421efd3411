//! The program: words, files, what they ask for, and what goes wrong.
#![tactic(auto)]

mod messages;
mod program;

pub use messages::tell;
pub use program::run;
pub use run_meaning::Status;
