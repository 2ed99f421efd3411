//! Laws of the forms of compiled SELECTs: a script of them has a text, since each is of the form of the dialect's grammar
//! and not too deep, and none of these reads a primary table. The functions without a body are laws.
#![tactic(auto)]

mod forms;
mod selects;

pub use forms::{constants_fit, names_are_names, operators_fit, scripts_are_writable, tests_fit};
pub use selects::{filters_fit, joins_fit, matches_fit, optional_joins_fit, unions_fit};
