//! Threads share inboxes, and a pass moves to the thread that uses it.

use crate::inbox::Inbox;
use crate::pass::InboxPass;
use crate::posting::Postable;

fn moves<T: Send>(_value: &T) {}

fn lends<T: Sync>(_value: &T) {}

/// An inbox of what may be given to another thread may itself be given to one, and lent to several.
pub fn inboxes_may_cross<T: Postable + Send>(inbox: &Inbox<T>) {
    moves(inbox);
    lends(inbox);
}

/// A pass may be given to another thread.
pub fn pass_may_move<T: Send>(pass: &InboxPass<T>) {
    moves(pass);
}
