//! Steps and whole scripts: how the tokens of a text decide what it spells.
#![tactic(auto)]
