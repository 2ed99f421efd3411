//! The outs of the compiler: the numbered steps of a node of a plan, and how those of its parts are put together.
#![tactic(auto)]

mod numbers;
mod out;
mod pairs;
mod single;
mod variables;

pub use out::Out;
pub use pairs::{conditional, joined, optional, united};
pub use single::{distinct, empty, filtered};
