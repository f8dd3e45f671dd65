//! LMS, the many-time signatures of RFC 8554, section 5: a tree over one-time keys.
//!
//! `specs/Nodes.antt`, `specs/PublicKeys.antt` and `specs/Trees.antt` are the RFC's formulas, which
//! every contract cites.
#![tactic(auto)]

mod nodes;
mod public_key;
mod together;
mod tree;

pub use crate::public_key::{PublicKey, number_of, tree_verify};
pub use crate::together::{TreeSigned, verify_three};
pub use crate::tree::{Tree, TreeAnswer};
