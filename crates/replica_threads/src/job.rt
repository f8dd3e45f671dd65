use crate::Posted;
use inboxes::InboxPass;

/// A hand of an actor, with a pass of each inbox.
#[derive(Drop)]
pub struct Job {
    pub passes: Vec<InboxPass<Posted>>,
}
