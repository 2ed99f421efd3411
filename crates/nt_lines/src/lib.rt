//! Data lines: from bytes to changes.
#![tactic(auto)]

mod characters;
mod enclosed;
mod label;
mod line;
mod reader;
mod refusal;
mod term;
#[cfg(test)]
mod tests;

pub use characters::{after_blanks, after_char, is_end};
pub use label::text_of_chars;
pub use line::chars_of;
pub use line_change_meaning::Change;
pub use reader::{MAX_LINE, read_changes, split_line};
pub use refusal::LineRefusal;
pub use term::iri_at;
