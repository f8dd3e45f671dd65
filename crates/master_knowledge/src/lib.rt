//! What a master knows: each part of each frame that it heard or said, handed to the parts of it that go by
//! such words. All that they answer are then the definitions over the one list of all that the master knows.
#![tactic(auto)]

mod certificate;
mod gift_words;
pub mod knowledge;
mod measure_words;
mod numbers;
mod order_words;
mod requests;
pub mod sets;
mod summaries;
mod view_words;
mod wait_words;

pub use knowledge::Knowledge;
pub use sets::are_live;
