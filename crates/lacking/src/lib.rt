//! What a master lacks, by the rules that stay alive: how far others have come with numbers and with requests, and how far
//! it wants numbers.
#![tactic(auto)]

pub mod furthest;
pub mod shown;
pub mod wanting;

pub use furthest::Furthest;
pub use shown::ShownBefore;
pub use wanting::{Standing, wanted_to};
