//! The job of each command, and which status comes when.
#![tactic(auto)]
