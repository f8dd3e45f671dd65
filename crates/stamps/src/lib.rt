//! The numbers 0, 1, .. that threads draw from one word, each number once. A thread draws by a seat of its own. Seats are split
//! off from the first one; at the end they are joined to it again, and the stamps are closed.
#![tactic(auto)]

pub mod crossing;
mod rule;
pub mod seat;
pub mod source;

pub use seat::StampSeat;
pub use source::Stamps;
