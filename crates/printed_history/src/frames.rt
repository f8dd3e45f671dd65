//! Frames that stand, from bytes.
ghost use Rattle.std.specs.Prelude.{◌≡◌, IfOk, filter};
ghost use Rattle.std.specs.Option.{option_to_list};
ghost use Rattle.history_rules.specs.Events.{Cry};
ghost use Rattle.checked_frames.specs.Standing.{stands};
ghost use Rattle.world_rules.specs.Frames.{cried};

use checked_frames::{Checked, KeyRing, RingMemory};
use plain_lists::{Items, Want};
use std::alloc::Global;
use world_history::{cried, if_standing};

/// The frames that stand of what a cry's bytes spell: one or none.
pub(crate) fn standing_cried(
    alloc: Global,
    ring: &KeyRing,
    bytes: &[u8],
) -> Result<Items<Checked>, Want>
    ensures { IfOk result (λ frames. frames ≡ filter (stands ring.now) (cried (Cry bytes.now))) }
{
    let mut memory = RingMemory::none(alloc);
    let found = standing(alloc, ring, &mut memory, bytes)?;
    let mut frames = Items::new(alloc);
    if let Some(frame) = found {
        frames.push(frame)?;
    }
    Ok(frames)
}

/// The frame that the bytes spell, if it stands.
pub(crate) fn standing(
    alloc: Global,
    ring: &KeyRing,
    memory: &mut RingMemory,
    bytes: &[u8],
) -> Result<Option<Checked>, Want>
    ensures { IfOk result (λ found. option_to_list found ≡ filter (stands ring.now) (cried (Cry bytes.now))) }
{
    let found = cried(alloc, bytes)?;
    match found {
        Some(frame) => if_standing(alloc, ring, memory, frame),
        None => Ok(None),
    }
}
