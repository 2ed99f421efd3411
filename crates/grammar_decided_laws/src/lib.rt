//! Laws of grammars in which the next token decides what is read: each text has one reading.
#![tactic(auto)]
