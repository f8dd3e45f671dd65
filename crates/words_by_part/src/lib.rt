//! Which part of a master says which words: laws by which parts that each count their own words as said make up a
//! master that counts all.
#![tactic(auto)]

pub mod laws;
