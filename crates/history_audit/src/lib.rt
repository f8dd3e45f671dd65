//! The audit of a history, by maps and sets in place of looking through what came before: how many words are forged, how
//! many texts share a digest, how many masters are intruded, and whether executions agree.
#![tactic(auto)]

mod counting;
pub mod laws;
mod prefixes;
mod rows;
mod said;
mod texts;

pub use counting::{Counts, audit, audit_entries};
pub use prefixes::{Executes, all_prefixes, one_begins};
