//! Inputs for readers, from a seed: frames, entries, Modbus messages, texts and whole calls by their grammars, with wrong parts
//! among them, and changes of such inputs.
#![tactic(auto)]

pub mod calls;
pub mod draws;
pub mod entries;
mod fields;
pub mod frames;
pub mod keys;
pub mod modbus;
pub mod mutations;
pub mod plant;
pub mod texts;
mod words;
