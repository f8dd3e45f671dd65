//! What an intruded master knows, each frame that it took or cried, part by part, and of these the body that a word of a
//! play is.
#![tactic(auto)]

mod asked;
mod bodies;
pub mod crossing;
mod digests;
pub mod laws;
mod marks;
mod naming;
pub mod overheard;
mod plans;
mod reports;
mod requests;
mod telling;

pub use naming::kind_of;
pub use overheard::Overheard;
