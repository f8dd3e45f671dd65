//! Entries as keepers keep them: each as bytes with its stamp and its event, written and read back. The format is this
//! project's own.
#![tactic(auto)]

mod fields;
pub mod laws;
mod ranges;
mod read;
mod spell;

pub use crate::read::{read_entry, read_kept};
pub use crate::spell::spell_entry;
