//! Which masters contradicted themselves, from signed words alone: each that is named comes with two words of its own that
//! no correct master says both.
#![tactic(auto)]

mod blame;
pub mod laws;
mod pairs;
mod slots;

pub use blame::Blame;
pub use pairs::Named;
