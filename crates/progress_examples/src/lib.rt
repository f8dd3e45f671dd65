//! Histories in full, that the laws of progress speak of: some that meet all their premises, and one of the rules first
//! specified, of which a law is false.
#![tactic(auto)]

pub mod examples;
