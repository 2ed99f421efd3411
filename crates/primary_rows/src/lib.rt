//! One side of the hashed layout: the rows of its entities, and its lists.
#![tactic(auto)]

mod append;
mod cells;
mod counts;
mod rows;
mod side;
mod table;
mod values;
mod views;

pub use cells::Pair;
pub use side::{Side, SideRefusal, Took};
pub use views::RowView;
