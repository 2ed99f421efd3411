//! The store of a run: from changes and options to the store whose tables stand for the triples present.
#![tactic(auto)]

mod changing;
mod choosing;
mod cut;
mod placing;
mod refusal;
mod store;

pub use rdf_layout::Store;
pub use rdf_triples::LoadRefusal;
pub use store::store_of;
