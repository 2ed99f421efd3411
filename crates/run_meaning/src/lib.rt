//! What a run of the program is asked and how it may end: its words, its limits, its statuses with their codes and lines.
#![tactic(auto)]

mod command;
mod fault;
mod status;
mod which;

pub use command::{Command, DataNames, Layout, Options};
pub use fault::{QueryFault, SqlFault};
pub use status::Status;
pub use which::{
    MOST_BLOCKS, MOST_COLUMNS, MOST_DATA_FILES, MOST_DEPTH, MOST_DIGITS, MOST_DRILL, MOST_FILE,
    MOST_GROUPS, MOST_HASHES, MOST_KEYS, MOST_LINE, MOST_PATTERNS, MOST_PIECES, MOST_QUERY,
    MOST_TERMS, MOST_TRIPLES, MOST_VARIABLES, Which,
};
