//! A master's votes against its leaders, by the rules that stay alive: how long it waits before it votes, and how far it
//! goes along with the others.
#![tactic(auto)]

pub mod laws;
pub mod patience;

pub use patience::Patience;
