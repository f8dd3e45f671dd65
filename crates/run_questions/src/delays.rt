//! How long updates took in a history: when each correct master executed them, when screens were answered, how delays spread,
//! what isn't executed by all, and the views in turn. `specs/DelaysText.antt` says what happened in a history, and
//! `delay_times` what its delays are.

mod happened;
mod text;
mod watching;

pub use text::delays_text;
pub use watching::watched_in;
