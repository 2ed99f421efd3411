//! The text of the statistics of a run.
#![tactic(auto)]

mod text;
mod work;

pub use work::stats_text;
