//! Reading the files that a command names, each judged before the next.
#![tactic(auto)]

mod colouring;
mod data;
mod query;
mod text;

pub use colouring::read_colours;
pub use data::read_data;
pub use query::{QueryFiles, read_query_files};
pub use text::read_text;
