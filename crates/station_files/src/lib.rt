//! What a station reaches outside itself, as traits: the file that it keeps its entries in, and lines that come in; and
//! that nothing is put out before what it tells of is kept. As those of
//! `outside` they count their faults. There are implementations over memory, for tests, and over the real system.
#![tactic(auto)]

pub mod batch;
pub mod kept_file;
pub mod lines;
pub mod memory_file;
pub mod read_lines;
pub mod real_file;
#[cfg(test)]
mod tests;
pub mod whole_lines;

pub use batch::{Batch, ReleaseAnswer};
pub use kept_file::KeptFile;
pub use lines::{Came, LineAnswer, Lines};
pub use memory_file::MemoryFile;
pub use read_lines::ReadLines;
pub use real_file::{OpenAnswer, RealFile, open_kept};
pub use whole_lines::whole_length;
