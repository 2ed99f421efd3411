//! The SELECTs of a star: access reads the primary table once, pairs reads each pair of columns where the predicate is a
//! variable, and each further step opens the lists of one arm. The cell of an arm is a column until the arm is open.
#![tactic(auto)]

mod access;
mod exprs;
mod names;
mod open;
mod pairs;
mod selects;

pub use access::access_core;
pub use open::open_core;
pub use pairs::pairs_body;
pub use selects::asked_vars;
