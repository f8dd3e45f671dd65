//! Delays: of each update that a client said, when each correct master executed it and when the screen that said it was answered,
//! in entries and in the actor's own ticks; how these delays spread; which updates weren't executed by all; and the views in turn.
//! All of it goes by what happened to whom at which entry, one list, so that no master is needed here.
#![tactic(auto)]

mod happening;
mod outcomes;
mod reigns;
mod sayings;
mod spreads;
mod table;
mod text;
mod unexecuted;

pub use happening::{Happening, Name, What};
pub use outcomes::{Delay, Outcome};
pub use reigns::Reign;
pub use spreads::{Figures, Spread};
pub use table::{Delays, Watched, delays_of};
pub use text::delays_text;
pub use unexecuted::Unexecuted;
