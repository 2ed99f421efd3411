//! What the text of a script says of the script: it is the one that is spelled, it has the forms of the dialect, and its depth
//! tells whether the text has a deep token.
#![tactic(auto)]

mod laws;

pub use laws::{
    read_scripts_are_writable, spelled_scripts_have_forms, spelled_texts_are_deep_by_depth,
    texts_spell_one_script,
};
