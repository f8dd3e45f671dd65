ghost use Rattle.std.specs.Prelude.{◌≡◌};

use play_words::Input;
use stamps::StampSeat;
use std::alloc::Global;
use world_history::Kept;

/// An actor with its seat and the inputs that it is given, while memory lasts.
pub struct Live {
    pub alloc: Global,
    pub kept: Kept,
    pub seat: StampSeat,
    pub inputs: Vec<Input>,
    /// How many of the inputs it has used.
    pub used: usize,
    /// The most turns that it may make.
    pub turns: u64,
    /// How many turns it has made.
    pub count: u64,
}

// Taken apart here once, so that no crate above proves it again.
impl Drop for Live {
    fn drop(self) {
        let Live {
            alloc: _,
            kept: _,
            seat: _,
            inputs: _,
            used: _,
            turns: _,
            count: _,
        } = self;
    }
}

impl Live {
    pub(crate) fn parted(self) -> (Kept, StampSeat)
        ensures { (result.0 ≡ self.kept) × (result.1 ≡ self.seat) }
    {
        let Live {
            alloc: _,
            kept,
            seat,
            inputs: _,
            used: _,
            turns: _,
            count: _,
        } = self;
        (kept, seat)
    }
}
