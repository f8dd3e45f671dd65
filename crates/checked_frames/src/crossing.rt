//! Frames that stand and rings move to other threads, and threads share one.

use crate::checked::Checked;
use crate::key_ring::KeyRing;

fn moves<T: Send>(_value: &T) {}

fn lends<T: Sync>(_value: &T) {}

/// A frame that stands may be given to another thread, and lent to several.
pub fn frame_may_cross(frame: &Checked) {
    moves(frame);
    lends(frame);
}

/// A ring may be given to another thread, and lent to several.
pub fn ring_may_cross(ring: &KeyRing) {
    moves(ring);
    lends(ring);
}
