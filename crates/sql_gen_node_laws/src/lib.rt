//! Laws of the nodes of a plan: where the outs of its parts stand for them, the out that a kind of node makes of them stands
//! for the node. The functions without a body are laws.
#![tactic(auto)]

mod nodes;

pub use nodes::{
    conditional_joins_stand, empty_leaves_stand, filters_stand, joins_stand, leaves_join,
    optional_joins_stand, unions_stand,
};
