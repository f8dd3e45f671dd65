//! What the program reaches outside itself, as traits: files to load, sinks to put bytes to and
//! keepers of entries. Each counts its faults, so that a caller's contract can say that a fault is
//! answered only where one came, and that none came else. There are implementations over memory, for tests, and over the real system.
#![tactic(auto)]

pub mod files;
pub mod keepers;
pub mod memory_files;
pub mod memory_keeper;
pub mod memory_sinks;
pub mod real;
pub mod sinks;

pub use files::{Files, LoadAnswer};
pub use keepers::{KeepAnswer, Keeper};
pub use memory_files::{MemoryFiles, SteadyFiles};
pub use memory_keeper::MemoryKeeper;
pub use memory_sinks::{MemorySink, SteadySink};
pub use real::{RealFiles, RealOut, RealOut as RealErr, read_whole};
pub use sinks::{PutAnswer, Sink};
