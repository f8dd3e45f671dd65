//! What a leader offers and what a master sums up at a tick, after Prime's pre-prepares and summaries, what of all that is
//! offered is worth a prepare, and the vouchers of a master. Each keeps what is needed of the words said, so that nothing
//! is looked through again.
#![tactic(auto)]

mod counted;
pub mod laws;
pub mod progress;
pub mod proposer;
pub mod summary;
pub mod vouchers;
pub mod worth;

pub use progress::Progress;
pub use proposer::Proposer;
pub use summary::Summary;
pub use vouchers::Vouchers;
