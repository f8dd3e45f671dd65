//! The global order, after Prime and PBFT: the prepares, commits and marks that a master says, what is prepared,
//! ordered and stable, and the certificates that a report brings. It keeps no list of the facts that it was handed or of
//! what it said, but an index that agrees with the definitions over these lists, whichever they were.
#![tactic(auto)]

mod certificates;
mod choices;
mod due;
pub mod laws;
mod letting;
mod offers;
pub mod order;
mod orders;
mod pending;
mod quorum;
mod said;
mod slots;
mod views;
mod votes;
mod waiting;

pub use order::Order;
