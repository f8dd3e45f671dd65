//! The text of a run: what each of its actors came to, the audit of its history, and the history itself.
#![tactic(auto)]

mod looking;
mod places;
mod printing;
mod said;
mod states;

pub use printing::{write_run, write_run_of};
