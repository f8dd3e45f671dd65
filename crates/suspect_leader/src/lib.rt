//! How long a leader keeps a master waiting and how long it may, counted in ticks, and the votes against a
//! leader that takes longer, after Prime's turnaround times.
#![tactic(auto)]

pub mod answers;
pub mod heard;
pub mod laws;
pub mod measure;
pub mod ranked;
pub mod saying;
pub mod tables;

pub use measure::Measure;
pub use saying::Saying;
