//! The tables that a layout gives for a list of changes, and the text of their statistics.
#![tactic(auto)]
