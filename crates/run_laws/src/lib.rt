//! Laws of runs in threads: there is one, whatever the actors of a scenario are given.
#![tactic(auto)]

pub mod laws;
