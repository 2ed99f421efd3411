//! The rows of scripts of the SQL dialect, their SELECTs in pieces, by indexes of the columns that joins compare.
#![tactic(auto)]

mod execute_bound;
mod row_lists;
mod rows;

pub use execute_bound::execute;
pub use row_lists::row_list;
pub use rows::bound_rows_of;
