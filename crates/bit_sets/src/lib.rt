//! Sets of numbers as words of 64 bits.
#![tactic(auto)]

mod bit_set;
mod queries;
mod words;

pub use bit_set::BitSet;
