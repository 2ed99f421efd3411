//! Laws of what a query means. Each is the contract of a function that does nothing: proofs above cite the laws, and
//! the functions show that they are proved.
#![tactic(auto)]

mod joins;
mod leaves;
mod order;
mod trees;

pub use joins::{
    filters_respect_bags, joins_regroup, joins_respect_bags, joins_turn, left_joins_respect_bags,
    left_joins_split, optional_moves_in, unions_respect_bags,
};
pub use leaves::{empty_leaf, leaf_of_one, leaves_join, patterns_in_any_order};
pub use order::{one_order, places_in_order, rows_in_order, terms_in_order};
pub use trees::{
    certain_are_bound, certain_of_leaves_are_bound, solutions_of_leaves_stay_over,
    solutions_stay_over, trees_respect_leaves,
};
