//! The law that a script under other aliases binds as it does under its own.
#![tactic(auto)]

mod scripts;

pub use scripts::renamed_scripts_bind_alike;
