//! Tests of the engine: its pieces run at the same time, and its joins use their indexes.
#![tactic(auto)]

#[cfg(test)]
mod engine;
#[cfg(test)]
mod meeting;
