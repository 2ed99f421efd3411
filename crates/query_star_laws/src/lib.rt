//! Laws of stars and plans. Each is the contract of a function that does nothing: proofs above cite the laws, and the
//! functions show that they are proved.
#![tactic(auto)]

mod merging;
mod plans;
mod stars;

pub use merging::{optional_arms_merge, required_arms_merge, stars_stand_first, unions_merge};
pub use plans::{plans_bind_certain, plans_stay_over};
pub use stars::{
    either_stars_are_two_leaves, leaves_of_stars_are_leaves, stars_are_leaves,
    stars_are_left_joins, stars_bind_certain, stars_stay_over,
};
