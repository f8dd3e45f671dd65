//! All that a master says at an event: what each of its parts owes, in one list in the order of the kinds. Gathered from
//! several parts are the words that come early and those that come late, the vector that it sums up, its gifts and its
//! vouchers.
#![tactic(auto)]

mod alive;
mod answer;
pub mod ask;
mod ask_words;
mod beats;
pub mod gift_words;
pub mod giving;
mod join;
mod lacking_words;
pub mod laws;
mod lead;
mod order_words;
pub mod replica_state;
pub mod split;
mod tick_alive;
mod tick_words;
pub mod vector;
mod view_words;
pub mod vouchers;

pub use ask::{Ask, ask_in};
pub use gift_words::{count_gifts, gifts_for};
pub use giving::{GiftsSaid, say_gifts};
pub use replica_state::ReplicaState;
pub use split::{Split, split_words};
pub use vector::vector_of;
pub use vouchers::say_vouchers;
