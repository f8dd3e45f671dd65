//! A master moves to other threads, and threads share one.

use crate::node::Node;

fn moves<T: Send>(_value: &T) {}

fn lends<T: Sync>(_value: &T) {}

/// A master may be given to another thread, and lent to several.
pub fn may_cross(node: &Node) {
    moves(node);
    lends(node);
}
