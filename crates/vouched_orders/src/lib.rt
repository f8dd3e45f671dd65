//! Which orders a client carries out: number after number, each as soon as enough different masters have
//! vouched for one and the same order. `specs/Vouching.antt` says what that means.
#![tactic(auto)]

mod ballots;
pub mod vote;
pub mod vouched;

pub use vote::Vote;
pub use vouched::Vouched;
