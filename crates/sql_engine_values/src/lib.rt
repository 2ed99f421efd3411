//! Values of expressions whose names are places, over rows of relations that are kept as their numbers; indexes of the relations.
#![tactic(auto)]

mod cells;
mod finding;
mod keeping;
mod kept;
mod relations;
mod sources;
mod values;

pub use cells::{equal_views, less_views, order_views, same_views};
pub use relations::{Relations, StepRows, share_relations};
pub use sources::{Sources, share_sources};
pub use values::{value, value_is_true};
