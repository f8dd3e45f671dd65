//! An operator's screen: it numbers the operator's commands, and shows the notices that masters vouch for.
#![tactic(auto)]

pub mod laws;
pub mod screen;

pub use screen::Screen;
