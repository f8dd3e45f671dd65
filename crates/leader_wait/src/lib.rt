//! How long a master waits for its leader: the age, in its own ticks, of the oldest thing that is eligible and not
//! ordered.
#![tactic(auto)]

pub mod demands;
pub mod laws;
pub mod wait;

pub use wait::LeaderWait;
