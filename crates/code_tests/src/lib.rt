//! Tests of what no run of the program reaches: calls of a library alone.
#![tactic(auto)]

#[cfg(test)]
mod columns;
#[cfg(test)]
mod full;
#[cfg(test)]
mod lists;
#[cfg(test)]
mod real_shelf;
#[cfg(test)]
mod stores;
#[cfg(test)]
mod tables;
#[cfg(test)]
mod told;
#[cfg(test)]
mod walks;
#[cfg(test)]
mod worked_file;
