//! Table statistics and their text.
#![tactic(auto)]
