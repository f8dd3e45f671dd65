//! What the threads of a run hand to one another. A thread posts to an inbox, and takes from it, by a pass of its own. What was
//! posted first is taken first, and each item once: the inbox keeps this as its rule. A pass is told where among all posts each
//! item stands that it took or posted; of all items a pass is told once all others were joined to it.
#![tactic(auto)]

pub mod crossing;
pub mod inbox;
pub mod pass;
pub mod posting;
mod rule;

pub use inbox::Inbox;
pub use pass::InboxPass;
pub use posting::Postable;
