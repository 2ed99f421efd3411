//! Laws of what is written for a script: it is read back as this script.
#![tactic(auto)]

mod laws;

pub use laws::{
    canonical_spellings_are_not_deep, canonical_spellings_are_not_refused,
    canonical_spellings_are_read_back, canonical_spellings_spell_their_script_only,
};
