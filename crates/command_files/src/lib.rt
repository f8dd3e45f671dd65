//! Files that commands read: a scenario, with its seed or without it, the ring of all actors' public keys, and the line of one
//! actor's own key. The lines of keys are written here too.
#![tactic(auto)]

mod fault;
mod lines;
mod own_key;
mod pieces;
mod ring;
mod scenarios;

pub use crate::fault::KeyFault;
pub use crate::lines::{put_own_line, put_ring_line};
pub use crate::own_key::{OwnKey, read_own_key};
pub use crate::ring::read_ring;
pub use crate::scenarios::{read_scenario, read_seedless};
