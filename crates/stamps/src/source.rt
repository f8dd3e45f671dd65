//! The word that all threads draw from.
ghost use Rattle.std.specs.Prelude.{◌≡◌, ◌≢◌, ◌++◌, ◌∷◌, ◌+◌, ◌<◌, ◌≤◌, ◌^◌, [], length, All, IfOk, IfSome, IfNone, IsNone, ◌↔◌};
ghost use Rattle.stamps.specs.Seats.{Drawer, first_seat, new_seat, IsWhole, IsEachOnce};

use crate::rule::{Draws, EachOnce, Joins, Known, SplitsOff};
use crate::seat::StampSeat;
use atomic_table::Table;
use plain_lists::Want;
use std::alloc::Global;
use std::marker::Model;

/// The numbers 0, 1, .. to draw. Contracts see which stamps they are, and how many seats they may have.
#[derive(Drop)]
pub struct Stamps {
    table: Table<u8, Known, u32, EachOnce, Global>,
}

impl Model for Stamps {
    ghost use Rattle.std.specs.Prelude.{◌≡◌, ◌≤◌};
    ghost use Rattle.stamps.specs.Seats.{Source};

    ghost Value = { Source };

    ghost view = { λ s. record { table = s.table.shared.table_id; seats = s.table.shared.key } };

    ghost invariant = { λ s. (s.table.shared.table_id.words ≡ 1) × (s.table.shared.table_id.slots ≡ 0) × (s.table.shared.key ≤ 65536) };
}

impl Stamps {
    /// New stamps for so many seats, with the first of these.
    pub fn new(alloc: Global, seats: u32) -> Result<(Stamps, StampSeat), Want>
        requires { (0 < seats) × (seats ≤ 65536) }
        ensures { IfOk result (λ made. (made.0.seats ≡ seats) × (made.1 ≡ first_seat made.0)) }
    {
        let (table, seat) = Table::of_words(alloc, &[0], &seats)?;
        let first = StampSeat {
            seat,
            number: 0,
            made: 1,
            seats,
        };
        Ok((Stamps { table }, first))
    }

    /// One seat more, whose number is the count of those made before. It is asked of the first seat, which counts them.
    pub fn split(&self, seat: &mut StampSeat) -> Option<StampSeat>
        requires of { seat.old.of ≡ self.now }
        requires first { seat.old.number ≡ 0 }
        ensures none { IsNone result ↔ (seat.old.made ≡ self.now.seats) }
        ensures unchanged { IfNone result (seat.new ≡ seat.old) }
        ensures some { IfSome result (λ other. (other ≡ new_seat self.now seat.old.made) × (seat.new ≡ record seat.old { made = seat.old.made + 1 })) }
    {
        if seat.made == seat.seats {
            return None;
        }
        let other = StampSeat {
            seat: self.table.shared.split_seat::<SplitsOff>(&mut seat.seat),
            number: seat.made,
            made: 0,
            seats: seat.seats,
        };
        seat.made += 1;
        Some(other)
    }

    /// The next number: above all that the seat drew before, and no other seat's. It takes no memory and doesn't wait.
    pub fn draw(&self, seat: &mut StampSeat) -> u64
        requires of { seat.old.of ≡ self.now }
        requires few { length seat.old.drawn < 2 ^ 32 }
        requires alone { seat.old.numbers ≡ seat.old.number ∷ [] }
        ensures drawn { seat.new ≡ record seat.old { drawn = seat.old.drawn ++ result ∷ [] } }
        ensures above { All (λ x. x < result) seat.old.drawn }
    {
        self.table.shared.fetch_add::<Draws>(&mut seat.seat, 0, 1)
    }

    /// Puts another seat, with all that it drew, into this one. The first seat can't be put into another.
    pub fn join(&self, seat: &mut StampSeat, other: StampSeat)
        requires of { (seat.old.of ≡ self.now) × (other.of ≡ self.now) }
        requires later { other.number ≢ 0 }
        ensures { seat.new ≡ record seat.old { numbers = seat.old.numbers ++ other.numbers; drawn = seat.old.drawn ++ other.drawn } }
    {
        let StampSeat {
            seat: joined,
            number: _,
            made: _,
            seats: _,
        } = other;
        self.table.shared.join_seat::<Joins>(&mut seat.seat, joined);
    }

    /// The end of the stamps: how many numbers were drawn. If all seats are in this one, it has drawn each number below that,
    /// once.
    pub fn close(self, seat: StampSeat) -> u64
        requires { seat.of ≡ self }
        ensures below { All (λ x. x < result) seat.drawn }
        ensures draws { IsWhole seat → IsEachOnce result seat.drawn }
        ensures numbers { IsWhole seat → IsEachOnce seat.made seat.numbers }
    {
        let Stamps { table } = self;
        let StampSeat {
            seat,
            number: _,
            made: _,
            seats: _,
        } = seat;
        let closed = table.close_with(seat);
        let drawn = closed.word(0);
        closed.free();
        drawn
    }
}
