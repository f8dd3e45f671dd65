//! One actor of a scenario as a process of its own: it takes events line by line, keeps a line of each entry in a file that it
//! alone has, and says the entry's words once that line is durable.
#![tactic(auto)]

mod asking;
mod beginning;
mod living;
mod notes;
mod station;
mod taken;
mod words;

pub use beginning::{BeginRefusal, MOST_KEPT, actor_of, begin};
pub use living::{Halt, MOST_LINE, live};
pub use station::Station;
