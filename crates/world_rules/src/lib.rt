//! What the histories of a scenario go by, as definitions, and the headline as a law over all of them.
#![tactic(auto)]

pub mod laws;
pub mod plant;
