//! Laws of queries and refusals. Each is the contract of a function that does nothing.

ghost use Rattle.sparql_refusals.specs.Laws.{QueriesAreNotRefused, RefusalsAreUnique};

/// No query of the fragment is refused.
#[tactic(auto, using(crate::specs::Laws::queries_are_not_refused))]
pub fn queries_are_not_refused()
    ensures { QueriesAreNotRefused }
{}

/// A text is refused in one way.
#[tactic(auto, using(crate::specs::Laws::refusals_are_unique))]
pub fn refusals_are_unique()
    ensures { RefusalsAreUnique }
{}
