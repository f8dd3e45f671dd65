//! Histories, the actors' own lists, and what an audit counts in them: laws over the definitions of `history_rules`.
#![tactic(auto)]

pub mod counts;
pub mod own_lists;
