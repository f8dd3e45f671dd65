//! The seats that threads draw by.
ghost use Rattle.std.specs.Prelude.{◌≡◌};

use crate::rule::Known;
use atomic_table::Seat;
use std::marker::Model;

/// The right to draw from some stamps. Contracts see which stamps these are, the seat's number, the numbers of the seats that
/// are in it, and all that these drew.
#[derive(Drop)]
pub struct StampSeat {
    pub(crate) seat: Seat<u8, Known>,
    pub(crate) number: u32,
    pub(crate) made: u32,
    pub(crate) seats: u32,
}

impl Model for StampSeat {
    ghost use Rattle.std.specs.Prelude.{◌≡◌, ◌≤◌, ◌<◌, [], length};
    ghost use Rattle.stamps.specs.Seats.{Drawer};

    ghost Value = { Drawer };

    ghost view = { λ s. record {
      of = record { table = s.seat.table_id; seats = s.seats };
      number = s.number;
      made = s.made;
      numbers = s.seat.me.0.numbers;
      drawn = s.seat.me.0.drawn;
    } };

    ghost invariant = { λ s. (s.seat.me.1 ≡ []) × (s.seat.me.0.made ≡ s.made) × (s.made ≤ s.seats) × (0 < length s.seat.me.0.numbers) × (s.number ≡ 0 → 0 < s.made) × (0 < s.number → s.made ≡ 0) };
}

impl StampSeat {
    /// The seat's number among those of its stamps: 0 for the one that they came with, and x for the x-th that was split off.
    pub fn number(&self) -> u32
        ensures { result ≡ self.now.number }
    {
        self.number
    }
}
