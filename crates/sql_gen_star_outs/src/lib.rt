//! The out of a star: its numbered steps, by the ids that are told of its constants.
#![tactic(auto)]

mod access;
mod arms;
mod either;
mod pairs;
mod stars;

pub use stars::star_out;
