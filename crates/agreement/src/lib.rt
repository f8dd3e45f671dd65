//! Why the masters agree: laws over every legal history.
#![tactic(auto)]

pub mod laws;
