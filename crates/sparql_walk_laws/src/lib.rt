//! What is read by the grammar, walked through token by token.
#![tactic(auto)]
