//! What the files of a play are made of: numbered lines, and in them words that are numbers, actors' names and frames.
#![tactic(auto)]

mod company;
mod fault;
mod frames;
mod kinds;
mod lines;
mod names;
mod numbers;
mod pieces;

pub use company::Company;
pub use fault::{LineRefusal, ScriptRefusal, both};
pub use frames::Allowed;
pub use kinds::Kind;
pub use lines::{Grammar, read_lines};
pub use names::names_rise;
pub use numbers::{bytes, narrow, number, short, signed, wide};
pub use pieces::{Part, each, parts};
