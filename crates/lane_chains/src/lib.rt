//! The chains of RFC 8554, section 4, eight at a time in the lanes of vectors: SHA-256 (FIPS 180-4) of eight messages of one
//! block at once. Their steps are 91 % of what signing and verifying cost.
//!
//! `specs/Hash.antt` and `specs/Chains.antt` are the RFC's formulas, which every contract cites; `specs/Lanes.antt` says what a
//! lane is, and `specs/Steps.antt` what a step hashes.
#![tactic(auto)]

mod chains;
mod hash;
mod lanes;
mod made;
mod rounds;
mod runs;
mod steps;
mod three;
mod words;

pub use crate::chains::{MOST_CHAINS, VALUES_LEN, read_value, run_chains, write_value};
pub use crate::hash::{hash_parts, hasher_under};
pub use crate::made::made_keys;
pub use crate::three::{KeyAt, three_keys};
