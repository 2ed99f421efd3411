//! What the limits of a text say of its tokens, and how the patterns of its query are numbered. The law is the contract of a
//! function that does nothing: proofs above cite it, and the function shows that it is proved.
#![tactic(auto)]

mod limits;

pub use limits::texts_stay_within;
