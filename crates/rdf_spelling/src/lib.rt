//! How terms are written, and the digits of numbers.
#![tactic(auto)]

mod digits;
mod spelling;

pub use digits::{are_digits, is_digit};
pub use spelling::{write_term, write_text};
