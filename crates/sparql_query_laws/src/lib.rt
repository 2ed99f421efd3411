//! What texts that are queries keep to, whether or not the limits on their bytes and their groups in all count: exact counts, bounds,
//! names, and how often a variable is shown. `sparql_renumbering_laws` has the bounds of all queries of the fragment.
#![tactic(auto)]

mod laws;

pub use laws::counts_are_exact;
