//! Laws over what the files of plays say: what is read for a scenario names actors that are there and have the roles that
//! they need, and words that can be said.
#![tactic(auto)]

pub mod laws;
