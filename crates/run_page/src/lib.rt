//! The page of a run, and what it tells beside the printed run: what the scenario says of the plant, and the details of entries.
#![tactic(auto)]

mod came;
mod details;
mod lists;
mod page;
mod plant;
mod said;
mod words;

pub use page::history_page;
