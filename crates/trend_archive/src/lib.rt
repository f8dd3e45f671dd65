//! A point's changes over the executed updates, and a board that shows what more than f masters answer alike.
//! `specs/Trends.antt` and `specs/Boards.antt` say what both are.
#![tactic(auto)]

pub mod answer;
pub mod board;
pub mod change;
pub mod laws;
mod ranges;
pub mod trend;

pub use answer::{TrendAnswer, refusal};
pub use board::TrendBoard;
pub use change::{Changed, Changes};
pub use trend::Trend;
