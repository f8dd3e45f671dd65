//! Small list types that contracts see as plain lists, and the two things that every type of the
//! project can do: be copied (which may want memory) and be compared. `specs/Lists.antt` says what is in a list.
#![tactic(auto)]

pub mod bytes;
pub mod copied;
pub mod items;
pub mod text;
pub mod want;

pub use bytes::Bytes;
pub use copied::{Copied, Same, copy_all};
pub use items::{Items, extend_option};
pub use text::Text;
pub use want::Want;

/// A list of numbers, as a master's vector of pre-order numbers.
pub type Vector = Items<u64>;
