//! What the files of a play say: the words that intruded masters are made to say, and what actors are given from outside.
#![tactic(auto)]

pub mod crossing;
mod input;
mod words;

pub use input::Input;
pub use words::{Item, Ref, Word};
