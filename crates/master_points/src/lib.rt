//! The plant as a master keeps it: what each executed update does, and the orders that it gives.
#![tactic(auto)]

pub mod effect;
pub mod laws;
pub mod limits;
pub mod lists;
pub mod master;
pub mod plant;

pub use limits::{MOST_INTERLOCKS, MOST_PROXIES, MOST_SCREENS};
pub use master::Master;
pub use plant::Plant;
