//! Printed runs read again: the history that a run's text tells, if it is a legal one of its scenario.
#![tactic(auto)]

mod acting;
mod events;
mod frames;
mod histories;
mod last;
mod reading;

pub use histories::{Replay, read_history, read_replay};
pub use reading::SoFar;
pub use run_lines::HistoryRefusal;
