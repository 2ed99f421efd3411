//! What a query over data files asks for, and the text of its answer.
#![tactic(auto)]
