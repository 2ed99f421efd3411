//! Laws of the rows of a script. Each is the contract of a function that does nothing: proofs above cite the laws, and
//! the functions show that they are proved.
#![tactic(auto)]

mod cells;
mod rows;

pub use cells::{cells_in_order, cells_told_apart};
pub use rows::{bound_columns_are_a_schema, bound_rows_fit, values_have_their_kinds};
