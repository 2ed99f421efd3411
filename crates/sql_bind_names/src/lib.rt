//! What the names of a script stand for: tables and steps by their names, and columns of the sources of a SELECT.
#![tactic(auto)]

mod columns;
mod found;
mod known;
mod sources;
mod stop;

pub use columns::Columns;
pub use found::Place;
pub use known::{Known, Relation};
pub use sources::Sources;
pub use stop::Stop;
