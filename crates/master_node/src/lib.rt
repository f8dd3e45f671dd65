//! One correct master: what it says and executes at each event is what its own list of events defines.
#![tactic(auto)]

pub mod crossing;
mod cut;
mod execute;
pub mod laws;
mod learn;
pub mod node;
pub mod running;

pub use node::Node;
