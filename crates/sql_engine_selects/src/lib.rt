//! The rows of a SELECT whose names are places: the picked rows in the order of the keys, then OFFSET and LIMIT, and the items; where
//! DISTINCT is asked the items come first.
#![tactic(auto)]

mod key_order;
mod keyed;
mod numbered;
mod select;
mod shown;

pub use select::select_rows;
