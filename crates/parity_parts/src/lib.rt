//! A text in parts, one for each master, of which any f + 1 give it back: Reed and Solomon's code over the field of 256
//! elements.
#![tactic(auto)]

mod field;
mod interpolation;
mod joining;
pub mod laws;
pub mod limits;
mod part;
mod rebuilding;

pub use crate::joining::join;
pub use crate::limits::MOST_TEXT_BYTES;
pub use crate::part::{Part, part_of, width_of};
pub use crate::rebuilding::{RebuildAnswer, Rebuilt, rebuild};
pub use plain_lists::Want;
