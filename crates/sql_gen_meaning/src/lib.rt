//! What may be compiled, and which scripts are right for a plan.
#![tactic(auto)]
