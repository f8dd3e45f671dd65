//! How a command ends: the files that it loads in turn, the text that it puts, its status, and the line that tells of a
//! refusal.
#![tactic(auto)]

pub mod call;
pub mod laws;
pub mod limits;
mod loads;
pub mod no_words;
mod output;
mod refusal;
pub mod report;

pub use crate::limits::{MOST_BYTES, MOST_KEPT_BYTES};
pub use crate::loads::{load, load_kept};
pub use crate::refusal::{KeepFault, LineFault, NoAnswer, Refusal, ScenarioFault};
