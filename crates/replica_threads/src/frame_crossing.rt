//! Threads share inboxes of frames on their way, and a gate.

use crate::pace::PaceGate;
use crate::posted::Posted;
use inboxes::Inbox;

fn moves<T: Send>(_value: &T) {}

fn lends<T: Sync>(_value: &T) {}

/// A frame on its way may be given to another thread.
pub fn posted_may_move(posted: &Posted) {
    moves(posted);
}

/// An inbox of such frames may be given to another thread, and lent to several.
pub fn inbox_may_cross(inbox: &Inbox<Posted>) {
    moves(inbox);
    lends(inbox);
}

/// A gate may be lent to several threads.
pub fn gate_may_be_lent(gate: &PaceGate) {
    lends(gate);
}
