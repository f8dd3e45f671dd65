//! The text of an update in parts: for a request that correct masters have certified its digest, and the part of it that each
//! of them has. From any f + 1 of these lines, beside whatever lines for other masters, the text is rebuilt.

mod certified;
pub mod laws;
mod text;

pub use part_lines::{RebuildRefusal, rebuilt_text};
pub use text::{PartsRefusal, parts_text};
