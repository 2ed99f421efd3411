//! What is told of tables that stand for triples: which of given predicates are spilled, and the ids of given terms.
#![tactic(auto)]
