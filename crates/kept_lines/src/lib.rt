//! What a station keeps: a line for each entry of what it did, as a printed run has it, with a digest of the words said there;
//! and the same read again.
#![tactic(auto)]

mod reading;
mod refusal;
mod writing;

pub use reading::reopen;
pub use refusal::KeptRefusal;
pub use writing::put_last;
