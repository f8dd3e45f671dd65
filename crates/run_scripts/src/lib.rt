//! Plays: the one history that a script and words define, entry by entry, with each actor as it is after it.
#![tactic(auto)]

mod acting;
mod answer;
mod crying;
pub mod laws;
mod mail;
mod playing;
mod plays;
mod posting;
mod steps;

pub use crate::answer::PlayAnswer;
pub use crate::plays::play;
pub use script_lines::{Script, Words, inputs};
