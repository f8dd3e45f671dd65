//! What is asked over a run: whom it blames (`blame`), a point's changes as more than f correct masters answer them alike
//! (`trend`), a certified request's text in parts (`parts`), and how long updates took (`delays`).
#![tactic(auto)]

pub mod blame;
pub mod delays;
pub mod parts;
pub mod trend;
