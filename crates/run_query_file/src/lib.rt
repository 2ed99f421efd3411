//! The query of a file: read, or refused under a status.
#![tactic(auto)]

mod reading;
mod refusals;

pub use reading::query_asked;
pub use refusals::load_status;
