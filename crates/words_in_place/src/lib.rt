//! Why a master may take its own frames as words known: all that it says is in its place.
#![tactic(auto)]

pub mod laws;
