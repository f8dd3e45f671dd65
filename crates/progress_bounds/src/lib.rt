//! What a correct master can be made to say, whatever intruded ones do: laws over legal histories.
#![tactic(auto)]

pub mod laws;
