//! LM-OTS, the one-time signatures of RFC 8554, section 4, with SHA-256.
//!
//! `specs/Parameters.antt`, `specs/Digits.antt` and `specs/Keys.antt` are the RFC's formulas, which
//! every contract cites; the chains run in lanes (`lane_chains`).
#![tactic(auto)]

mod digits;
mod keys;
mod parameters;
mod together;

pub use crate::keys::{ots_candidate, ots_form, ots_public, ots_publics, ots_sign};
pub use crate::parameters::Ots;
pub use crate::together::{OtsSigned, ots_candidates};
pub use lane_chains::{KeyAt, hash_parts, hasher_under};
