//! Laws of the tokens of a query: the longest one that is spelled at a place is found, and a text is cut by these alone.
#![tactic(auto)]

mod laws;

pub use laws::{
    found_tokens_are_spelled, no_longer_token_is_spelled, texts_are_cut_by_longest_tokens,
    texts_have_one_outcome,
};
