//! What a master asks of others and what others want of it, after Prime's reconciliation: each is asked for
//! once, by its name, and given once. A gift is a certified request with the acknowledgements of a quorum: the first
//! request of each number and digest and the first acknowledgement of each master are kept, so that no gift looks
//! through what is known.
#![tactic(auto)]

mod acks;
mod again;
pub mod asks;
pub mod gifts;
pub mod giving;
pub mod lacking;
pub mod laws;
pub mod shares;
pub mod wanted;

pub use asks::Asks;
pub use gifts::Gifts;
pub use giving::{gift_certified, gives, note_given, numbers_wanted};
pub use lacking::requests_lacking;
pub use shares::Shares;
pub use wanted::{Wanted, asked_in};
