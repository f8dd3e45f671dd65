//! An intruded master at its events.
ghost use Rattle.std.specs.Prelude.{◌≡◌, ◌++◌, OnOk};
ghost use Rattle.std.specs.List.{flat_map};
ghost use Rattle.message_types.specs.Parts.{parts};
ghost use Rattle.protocol_rules.specs.Master.{taken_frames};
ghost use Rattle.history_rules.specs.Events.{frame_taken, Cry};
ghost use Rattle.world_entries.specs.Entries.{event_of};
ghost use Rattle.world_rules.specs.Frames.{cried};

use crate::reading::cried;
use intruder_words::Overheard;
use plain_lists::Want;
use std::alloc::Global;
use world_entries::Event;

/// An intruded master learns the frame that it takes, and that which its cry spells.
pub(crate) fn overhear(alloc: Global, known: &mut Overheard, event: &Event) -> Result<(), Want>
    ensures { OnOk result (known.new ≡ known.old ++ flat_map parts (taken_frames (frame_taken (event_of event.now)) ++ cried (event_of event.now))) }
{
    match event {
        Event::Took { frame, .. } => known.hear(frame.frame()),
        Event::Cry { bytes } => overhear_cry(alloc, known, bytes.as_slice()),
        _ => Ok(()),
    }
}

/// Learns the frame that the bytes spell, if they spell one.
fn overhear_cry(alloc: Global, known: &mut Overheard, bytes: &[u8]) -> Result<(), Want>
    ensures { OnOk result (known.new ≡ known.old ++ flat_map parts (cried (Cry bytes.now))) }
{
    match cried(alloc, bytes)? {
        Some(frame) => known.hear(&frame),
        None => Ok(()),
    }
}
