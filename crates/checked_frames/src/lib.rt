//! Which frames stand: each of their parts is of an actor that is there, signed by it, and in its place. And the
//! signatures of bodies, of which up to `MOST_SHARING` share one leaf of a key.
#![tactic(auto)]

mod checked;
pub mod crossing;
mod entry;
mod groups;
mod key_ring;
pub mod laws;
mod places;
mod refusal;
mod ring_memory;
mod signing;

pub use crate::checked::{Checked, check, check_with, parts};
pub use crate::entry::sign_entry;
pub use crate::key_ring::KeyRing;
pub use crate::places::is_in_place;
pub use crate::refusal::CheckRefusal;
pub use crate::ring_memory::RingMemory;
pub use crate::signing::{sign_group, signs};
