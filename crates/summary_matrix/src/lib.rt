//! The latest summary of each master, after Prime: how far the requests of each are certified as the masters
//! tell it, which of them that makes eligible, and when a leader has more to offer.
#![tactic(auto)]

pub mod laws;
pub mod matrix;
pub mod reach;

pub use matrix::Matrix;
pub use reach::{Reach, eligible};
