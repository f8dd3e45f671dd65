//! The executed updates: the requests that the ordered rows make eligible, in order, as far as they are certified,
//! each client's updates in turn.
#![tactic(auto)]

pub mod laws;
mod progress;
mod requests;
pub mod run;

pub use run::Run;
