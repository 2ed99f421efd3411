//! What a merged plan is, and how often a plan looks at a primary table.
#![tactic(auto)]
