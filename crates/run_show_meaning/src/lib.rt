//! Showing the tables and the script of a query: which texts fit.
#![tactic(auto)]
