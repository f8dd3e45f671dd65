//! The actors' seeds, identifiers and keys, all made from the one seed of a scenario, and the ring of their public keys.
#![tactic(auto)]

mod keys;

pub use crate::keys::{actor_identifier, actor_key, actor_seed, ring_of};
