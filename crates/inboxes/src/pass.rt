//! The passes by which threads use an inbox.

use crate::rule::Known;
use crossbeam_queue::SegPass;

/// The right to take from an inbox and to post to it. It has no bytes. Contracts see what it took and what it posted, each with
/// its place among all that were ever posted there.
#[derive(Drop)]
pub struct InboxPass<T> {
    pub(crate) seat: SegPass<T, Known<T>>,
}
