//! What a station makes of each line that comes to it, as definitions, and that it stays a station and says only what it may.
#![tactic(auto)]

pub mod laws;
