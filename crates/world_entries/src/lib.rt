//! Histories as they are kept: entries, each one event of one actor with the bodies that it said.
#![tactic(auto)]

pub mod crossing;
mod entry;
mod history;

pub use entry::{Entry, Event};
pub use history::History;
