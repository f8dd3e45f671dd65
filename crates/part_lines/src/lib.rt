//! Texts of parts: the digest of a text with the parts of it that masters have, a line each, printed and read, and what is
//! printed of a text that is rebuilt from such lines.
#![tactic(auto)]

mod fault;
pub mod laws;
mod lines;
mod parts;
mod printing;
mod rebuilding;
mod told;

pub use crate::fault::RebuildRefusal;
pub use crate::printing::{put_digest, put_part};
pub use crate::rebuilding::rebuilt_text;
pub use crate::told::{Told, read_told};
