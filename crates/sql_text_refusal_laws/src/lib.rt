//! Laws of SQL texts and their refusals: each text has a cut, and none is neither a script nor refused.
#![tactic(auto)]

mod laws;

pub use laws::{no_sql_text_is_neither, no_sql_text_is_neither_read_nor_refused, texts_have_a_cut};
