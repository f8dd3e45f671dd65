//! What a correct master hears along its own list of entries, and that what it says there stands.
#![tactic(auto)]

pub mod laws;
