//! Rules over points and alarms, and the interlocks that deny commands by them.
#![tactic(auto)]

pub mod interlock;
mod number;
mod reader;
pub mod refusal;
pub mod rule;
mod scan;
pub mod token;
pub mod tree;

pub use interlock::Interlock;
pub use refusal::RuleRefusal;
pub use rule::Rule;
pub use tree::Comparison;
