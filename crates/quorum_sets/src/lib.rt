//! The sizes of a group of masters and their limits, sets of masters, and why any two quorums meet.
#![tactic(auto)]

pub mod laws;
pub mod limits;
pub mod sizes;
pub mod voters;

pub use limits::{CLIENT_PLACES, MASTER_PLACES, MOST_CLIENTS, MOST_MASTERS};
pub use sizes::{BadSizes, Rules, Sizes};
pub use voters::VoterSet;
