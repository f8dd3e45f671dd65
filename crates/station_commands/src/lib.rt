//! The command that lives one actor's life: what its words name is loaded and read, the file that the actor keeps is opened and
//! recovered, and lines are taken until the input ends.
#![tactic(auto)]

mod beginning;
pub mod call;
mod holding;
mod keep;
pub mod laws;
mod life;
mod opening;
mod refusal;
mod report;

pub use crate::keep::{Keep, RealKeep};
pub use crate::refusal::{StationFault, StationRefusal};
