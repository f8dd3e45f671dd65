//! HSS, the hierarchical signatures of RFC 8554, section 6, and a key that signs in order.
//!
//! `specs/Verification.antt` and `specs/Signatures.antt` are the RFC's formulas, which every contract
//! cites.
#![tactic(auto)]

pub mod crossing;
mod descent;
mod key_state;
mod known_keys;
mod path;
mod verification;

pub use crate::key_state::{KeyAnswer, KeyState, SignAnswer, public_key};
pub use crate::known_keys::KnownKeys;
pub use crate::verification::{Anew, KeyCheck, verify, verify_by};
pub use ots_keys::Ots;
