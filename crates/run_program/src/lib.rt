//! The program over whole runs: plays, runs in threads and replays from what was read to the text of the run, what is asked over
//! them, and the call that main makes.
#![tactic(auto)]

mod answering;
pub mod call;
mod faults;
mod merged;
mod played;
mod replayed;
mod runs;
mod threaded;
