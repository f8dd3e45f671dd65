//! The frames of an actor's words, as all who take them share them.
ghost use Rattle.std.specs.Prelude.{◌≡◌, [], false, slice_get};
ghost use Rattle.std.specs.Option.{option_map};
ghost use Rattle.world_history.specs.Seats.{frames_of_each};
ghost use Rattle.world_history.specs.State.{setup_in};

use crate::bench::Bench;
use checked_frames::Checked;

impl Bench {
    /// The frames of what the actor said at an entry of its list, in order; none where it has no such entry. A copy of one
    /// shares the frame, and none is tried again: they stand, since the actor's own key signed them.
    pub fn frames_at(&self, place: usize) -> Option<&[Checked]>
        ensures { self.now.is_spent ≡ false
            → option_map (λ frames. frames.now) result ≡ slice_get (frames_of_each (setup_in self.now) self.now.actor [] self.now.list) place }
    {
        match self.seat.frames.get(place) {
            Some(frames) => Some(frames.as_slice()),
            None => None,
        }
    }
}
