ghost use Rattle.std.specs.Prelude.{◌≡◌, IsTrue, IfOk};
ghost use Rattle.message_types.specs.Spelling.{has_spelling};
ghost use Rattle.scenario_file.specs.Reading.{Contents};
ghost use Rattle.world_rules.specs.Scenarios.{setup_of};
ghost use Rattle.world_history.specs.Signed.{ring_in};
ghost use Rattle.station_turns.specs.Checking.{held_where_standing};

use checked_frames::{KeyRing, RingMemory};
use inboxes::Postable;
use message_types::Frame;
use plain_lists::{Copied, Want};
use station_turns::{Held, held_if_standing};
use std::alloc::Global;

/// A frame on its way, said at this stamp as body number `place` of its entry, from 0.
pub struct Posted {
    pub stamp: u64,
    pub place: u32,
    pub frame: Frame,
}

// Taken apart here once, so that no crate above proves it again.
impl Drop for Posted {
    fn drop(self) {
        let Posted {
            stamp: _,
            place: _,
            frame: _,
        } = self;
    }
}

impl Postable for Posted {
    ghost use Rattle.std.specs.Prelude.{IsTrue};
    ghost use Rattle.message_types.specs.Spelling.{has_spelling};

    ghost fits = { λ posted. IsTrue (has_spelling posted.frame) };
}

impl Copied for Posted {
    fn copy(&self) -> Result<Self, Want> {
        Ok(Posted {
            stamp: self.stamp,
            place: self.place,
            frame: self.frame.copy()?,
        })
    }
}

impl Posted {
    /// As a turn can take it: none where the frame doesn't stand.
    pub(crate) fn into_held(
        self,
        alloc: Global,
        ring: &KeyRing,
        memory: &mut RingMemory,
    ) -> Result<Option<Held>, Want>
        requires { IsTrue (has_spelling self.frame) }
        ensures { IfOk result (λ held. (c : Contents) → ring.now ≡ ring_in c → held ≡ held_where_standing (setup_of c) self.stamp self.place self.frame) }
    {
        let Posted {
            stamp,
            place,
            frame,
        } = self;
        held_if_standing(alloc, ring, memory, stamp, place, frame)
    }
}
