//! The commands: what each loads, makes and prints, and the call of the program that runs them.
#![tactic(auto)]

mod actor_lines;
mod answering;
pub mod call;
mod made;
mod made_scenarios;
mod made_scripts;
mod merged;
mod opening;
mod program;
mod questions;
mod runs;
mod scripted;
mod summary_lines;
mod threaded;
mod verdicts;
mod verifying;

pub use crate::made_scenarios::made_scenario;
pub use crate::made_scripts::made_script;
pub use crate::program::Program;
pub use crate::questions::Question;
pub use crate::runs::Runs;
pub use crate::summary_lines::summary;
