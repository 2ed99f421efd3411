//! The compiler: the script of SQL of a plan, over tables of which the columns, and the ids of the plan's constants, are known.
#![tactic(auto)]

mod compiling;
mod leaves;
mod trees;

pub use compiling::compile;
