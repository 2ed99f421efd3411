//! What a file of tables and SQL asks for, and the cells of its script.
#![tactic(auto)]
