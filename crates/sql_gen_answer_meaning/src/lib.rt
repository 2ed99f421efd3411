//! How the rows of a compiled query's last SELECT are read as its answer, and the columns that they have.
#![tactic(auto)]
