//! The store: a dictionary and two sides, whose tables stand for a set of triples.
#![tactic(auto)]

mod bulk;
mod facts;
mod gathering;
mod item_set;
mod noted;
mod refusal;
mod stats;
mod steps;
mod store;

pub use layout_choice::{ColourWay, LayoutChoice};
pub use layout_tables::Tables;
pub use pred_columns::{ConstCount, Counts, IdPair, LayoutFacts, QueryIds, Spilled};
pub use primary_rows::Took;
pub use refusal::StoreRefusal;
pub use stats::{SideStats, Stats};
pub use store::Store;
pub use value_lists::Put;
