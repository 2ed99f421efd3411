//! Lists read as bags, and lists in order: definitions.
#![tactic(auto)]
