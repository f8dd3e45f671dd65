//! What one does who has an actor's own key and the ring of public keys, and no seed of the scenario: the same as with it.
#![tactic(auto)]

pub mod laws;
