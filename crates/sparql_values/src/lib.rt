//! Readers of the values of a query's expressions, and of the tests over values.
#![tactic(auto)]

mod lists;
mod next;
mod operators;
mod tests_of_values;
mod values;

pub use next::test_ahead;
pub use operators::{operator_ahead, read_operator};
pub use tests_of_values::read_test;
pub use values::{read_function, read_plain_value, read_value};
