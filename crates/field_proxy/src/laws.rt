//! What holds of a proxy after any list of happenings, and beyond its calls.
ghost use Rattle.field_proxy.specs.Happenings.{LastsAreSaid, WritesAreDone};

use crate::proxy::Proxy;

/// The writes are the orders that more than f masters vouched for, number after number.
pub fn writes_are_done()
    ensures { WritesAreDone }
{}

/// The values that a poll compares its readings with are those last said.
pub fn lasts_are_said()
    ensures { LastsAreSaid }
{}

fn moves<T: Send>(_value: &T) {}

fn lends<T: Sync>(_value: &T) {}

/// A proxy may be handed to another thread, and lent to several.
pub fn crosses_threads(proxy: &Proxy) {
    moves(proxy);
    lends(proxy);
}
