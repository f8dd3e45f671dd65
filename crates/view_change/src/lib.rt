//! Views, after Prime's suspicion votes and PBFT's view change: which view a master is in, whether it is open,
//! what a new view takes over, and the reports and new views that a master owes.
#![tactic(auto)]

pub mod laws;
pub mod plans;
pub mod views;

pub use plans::{plan_of, plan_of_new_view};
pub use views::Views;
