//! Turns of an actor in a run of threads: what stands behind an actor's lock, and what one turn of it draws and adds.
#![tactic(auto)]

mod adding;
mod checking;
mod giving;
mod held;
pub mod laws;
pub mod live;
mod naming;
mod own_station;
mod skipping;
mod station;
mod turning;

pub use checking::held_if_standing;
pub use held::{Held, Turned};
pub use naming::{Naming, Owner};
pub use own_station::OwnStation;
pub use station::Station;
