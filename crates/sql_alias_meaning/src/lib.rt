//! What a visitor of scripts makes of their nodes: definitions.
#![tactic(auto)]
