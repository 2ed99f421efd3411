//! Laws of grammars for readers that tell a fault of a part from one of the whole.
#![tactic(auto)]
