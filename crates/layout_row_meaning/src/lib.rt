//! What is read of a row of a primary table: the value under a predicate, in whichever of given columns it stands.
#![tactic(auto)]
