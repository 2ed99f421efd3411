//! The words of the command line, read as a command with its options.
#![tactic(auto)]

mod words;

pub use words::command_of;
