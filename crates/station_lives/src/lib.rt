//! Stations, each an actor as a process of its own that keeps its entries in a file: what it may say, and the lives of its file,
//! over which no one-time key signs twice.
#![tactic(auto)]

pub mod laws;
