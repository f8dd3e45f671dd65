//! Threads share stamps, and a seat moves to the thread that draws by it.

use crate::seat::StampSeat;
use crate::source::Stamps;

fn moves<T: Send>(_value: &T) {}

fn lends<T: Sync>(_value: &T) {}

/// Stamps may be given to another thread, and lent to several.
pub fn stamps_may_cross(stamps: &Stamps) {
    moves(stamps);
    lends(stamps);
}

/// A seat may be given to another thread.
pub fn seat_may_move(seat: &StampSeat) {
    moves(seat);
}
