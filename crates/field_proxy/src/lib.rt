//! A proxy before a field device: it says what it reads of its points, and writes what enough masters vouch for.
//! `specs/Front.antt` says how its state follows from what happens to it.
#![tactic(auto)]

mod exchange;
pub mod laws;
pub mod line;
mod orders;
pub mod proxy;
mod readings;
mod undo;
pub mod writes;

pub use line::Exchange;
pub use proxy::Proxy;
pub use writes::Write;
