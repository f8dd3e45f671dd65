//! Histories as definitions, in `specs/`: the entries of all actors in one list, what each actor knew at each of
//! its entries, which histories are legal, and what an audit finds in one.
#![tactic(auto)]

pub mod laws;
pub mod limits;

pub use limits::MOST_SHARING;
