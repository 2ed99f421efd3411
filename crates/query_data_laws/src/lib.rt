//! Laws of data: what a query means rests on which triples there are, and on no order or repeat of them. Each law is
//! the contract of a function that does nothing: proofs above cite the laws, and the functions show that they are proved.
#![tactic(auto)]

mod triples;

pub use triples::{answers_rest_on_the_set, solutions_rest_on_the_set};
