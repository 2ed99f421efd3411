//! What a query means: solutions, evaluation, and the answer in order and as text: definitions.
#![tactic(auto)]
