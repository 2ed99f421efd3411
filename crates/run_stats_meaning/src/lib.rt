//! What counting the tables of data files asks for, and its text.
#![tactic(auto)]
