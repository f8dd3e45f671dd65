//! Frames as they are taken from an inbox.
ghost use Rattle.std.specs.Prelude.{◌≡◌, IsTrue, IfOk};
ghost use Rattle.message_types.specs.Spelling.{has_spelling};
ghost use Rattle.scenario_file.specs.Reading.{Contents};
ghost use Rattle.world_rules.specs.Scenarios.{setup_of};
ghost use Rattle.world_history.specs.Signed.{ring_in};
ghost use Rattle.station_turns.specs.Checking.{held_where_standing};

use crate::held::Held;
use checked_frames::{KeyRing, RingMemory};
use message_types::Frame;
use plain_lists::Want;
use std::alloc::Global;
use world_history::if_standing;

/// A frame that was taken from an inbox, as a turn can take it; none where it doesn't stand. It was said at this stamp as body
/// number `place` of its entry. The ring has the keys of the run's scenario; the memory is of frames that were checked with it.
pub fn held_if_standing(
    alloc: Global,
    ring: &KeyRing,
    memory: &mut RingMemory,
    stamp: u64,
    place: u32,
    frame: Frame,
) -> Result<Option<Held>, Want>
    requires { IsTrue (has_spelling frame) }
    ensures { IfOk result (λ held. (c : Contents) → ring.now ≡ ring_in c → held ≡ held_where_standing (setup_of c) stamp place frame) }
{
    let found = if_standing(alloc, ring, memory, frame)?;
    match found {
        Some(frame) => Ok(Some(Held {
            stamp,
            place,
            frame,
        })),
        None => Ok(None),
    }
}
