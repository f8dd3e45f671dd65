//! A key moves to other threads, and threads share one.

use crate::key_state::KeyState;

fn moves<T: Send>(_value: &T) {}

fn lends<T: Sync>(_value: &T) {}

/// A key may be given to another thread, and lent to several.
pub fn may_cross(key: &KeyState) {
    moves(key);
    lends(key);
}
