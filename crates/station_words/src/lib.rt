//! The words of the command that lives one actor's life: `station SCENARIO ACTOR KEEP [RING KEY]`, read with `clap` as those of the other
//! commands are. It is a command line of its own, since a station puts out as it goes and no whole text at its end.
#![tactic(auto)]

mod command_line;
mod given;
mod read;

pub use crate::given::{KeyFiles, StationWords};
pub use crate::read::{is_station, read_station};
