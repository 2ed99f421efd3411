//! The first token of a query at which a prefix isn't declared or a limit is passed.
#![tactic(auto)]

mod brackets;
mod faults;
mod limits;
mod role;
mod state;
mod turning;

pub use faults::{Fault, FaultAt, first_fault};
