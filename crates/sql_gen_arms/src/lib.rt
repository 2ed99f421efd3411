//! The arms of a star by the ids of terms: what is asked of each of its places, and the chain of steps that open the arms'
//! lists, one after the other.
#![tactic(auto)]

mod asked;
mod openings;

pub use asked::{asked_slot, optional_arms, required_arms, told_id};
pub use openings::{Chain, next, opened};
pub use sql_gen_steps::has;
