//! The scenario file: which group, which plant and which faults a play has.
#![tactic(auto)]

pub mod actors;
pub mod held;
mod keepers;
pub mod laws;
mod lists;
mod plant;
pub mod refusal;
mod rows;
pub mod scenario;
mod settings;
mod unknown;
mod values;

pub use actors::Cast;
pub use held::HeldKeys;
pub use refusal::ScenarioRefusal;
pub use scenario::Scenario;
