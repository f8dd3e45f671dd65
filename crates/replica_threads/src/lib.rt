//! A run of threads: each actor stands behind a lock of its own, and hands in threads of their own make the actors' turns and hand
//! what is said there to the other actors, by their inboxes. In the end the seats are put together, and the actors are given one
//! a number.
#![tactic(auto)]

mod completing;
mod course;
pub mod crossing;
mod ending;
mod finishing;
pub mod frame_crossing;
mod gate;
mod gathering;
mod handing;
mod hands;
mod job;
pub mod laws;
mod mailing;
mod pace;
mod place;
mod posted;
mod posting;
mod running;
mod scripted;
mod seating;
mod shared;
mod taking;

pub use completing::lacking;
pub use ending::ended;
pub use gate::{Gate, OpenGate};
pub use hands::hand;
pub use inboxes::{Inbox, InboxPass};
pub use pace::PaceGate;
pub use posted::Posted;
pub use running::run;
pub use scripted::run_script;
pub use shared::Shared;
pub use station_turns::{OwnStation, Station};
