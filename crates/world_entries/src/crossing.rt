//! Events and entries move to other threads, and threads share them.

use crate::entry::{Entry, Event};

fn moves<T: Send>(_value: &T) {}

fn lends<T: Sync>(_value: &T) {}

/// An event may be given to another thread, and lent to several.
pub fn event_may_cross(event: &Event) {
    moves(event);
    lends(event);
}

/// An entry may be given to another thread, and lent to several.
pub fn entry_may_cross(entry: &Entry) {
    moves(entry);
    lends(entry);
}
