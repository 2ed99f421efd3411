//! What the outs of the compiler stand for, and how outs are put together. The functions without a body are laws; those on
//! steps that are shown one from another stand in `proofs/Made.antt`, since no contract can speak of all properties.
#![tactic(auto)]

mod outs;

pub use outs::{further_steps_stand, steps_over_tables_stand, two_outs_stand};
