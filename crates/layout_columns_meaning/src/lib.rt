//! The columns of a layout for a bulk: as they were chosen, or with the colours of the bulk's predicates.
#![tactic(auto)]
