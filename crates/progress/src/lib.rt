//! What is executed, and when: laws over legal histories that go on in fair rounds.
#![tactic(auto)]

pub mod laws;
