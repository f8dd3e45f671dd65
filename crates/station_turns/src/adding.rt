//! One entry of an actor, and what is posted of it.
ghost use Rattle.std.specs.Prelude.{◌≡◌, ◌<◌, ◌^◌, ◌++◌, true, false, length, nat_lt, IsTrue, IfOk, IfSome, OnOk};
ghost use Rattle.std.specs.List.{list_all};
ghost use Rattle.message_types.specs.Spelling.{has_spelling};
ghost use Rattle.scenario_file.specs.Reading.{contents};
ghost use Rattle.history_rules.specs.Setup.{stands};
ghost use Rattle.history_rules.specs.Legal.{TakesWell};
ghost use Rattle.world_entries.specs.Entries.{event_of};
ghost use Rattle.world_rules.specs.Frames.{cried};
ghost use Rattle.world_history.specs.Roles.{optional};
ghost use Rattle.world_history.specs.State.{setup_in, with_entry};
ghost use Rattle.world_history.specs.KeptState.{halted_in};
ghost use Rattle.station_turns.specs.Turns.{stamp_posted, frames_posted, cries_frame};

use message_types::Frame;
use plain_lists::Want;
use scenario_file::Scenario;
use std::alloc::Global;
use world_entries::Event;
use world_history::{Bench, Kept, cried};

/// The stamp at which the frames were said that are posted at an event.
fn stamp_posted(bench: &Bench, stamp: u64, event: &Event) -> u64
    ensures { result ≡ stamp_posted bench.now.list stamp (event_of event.now) }
{
    match (event, bench.list().last()) {
        (Event::Restart, Some(entry)) => entry.stamp,
        _ => stamp,
    }
}

/// The frame that an event cries.
fn frame_cried(alloc: Global, event: &Event) -> Result<Option<Frame>, Want>
    ensures found { IfOk result (λ found. optional found ≡ cried (event_of event.now)) }
    ensures spelled { IfOk result (λ found. IfSome found (λ frame. IsTrue (has_spelling frame))) }
{
    match event {
        Event::Cry { bytes } => cried(alloc, bytes.as_slice()),
        _ => Ok(None),
    }
}

fn push_if(frames: &mut Vec<Frame>, frame: Option<Frame>) -> Result<(), Want>
    requires spelled { IfSome frame (λ frame. IsTrue (has_spelling frame)) }
    requires all { list_all has_spelling frames.old.items ≡ true }
    ensures added { OnOk result (frames.new.items ≡ frames.old.items ++ optional frame) }
    ensures all { OnOk result (list_all has_spelling frames.new.items ≡ true) }
{
    match frame {
        Some(frame) => {
            frames.push(frame)?;
            Ok(())
        }
        None => Ok(()),
    }
}

/// What is posted of an entry: frames, the stamp at which they were said, and whether the entry cried one.
#[derive(Drop)]
pub(crate) struct Posting {
    pub stamp: u64,
    pub frames: Vec<Frame>,
    pub cries: bool,
}

/// Adds an actor's entry.
pub(crate) fn add(
    alloc: Global,
    scenario: &Scenario,
    kept: &mut Kept,
    stamp: u64,
    event: Event,
) -> Result<Posting, Want>
    requires scenario { contents scenario.now ≡ kept.old.bench.world }
    requires running { halted_in kept.old.bench ≡ false }
    requires fits { (setup_in kept.old.bench).fits kept.old.bench.actor (event_of event) ≡ true }
    requires later { list_all (λ e. nat_lt e.stamp stamp) kept.old.bench.list ≡ true }
    requires taken { TakesWell (setup_in kept.old.bench) stamp (event_of event) }
    requires short { length kept.old.bench.list < 2 ^ 32 }
    ensures entry { OnOk result (kept.new.bench ≡ with_entry kept.old.bench stamp (event_of event)) }
    ensures works { OnOk result (kept.new.is_spent ≡ false) }
    ensures stamp { IfOk result (λ posting. posting.stamp ≡ stamp_posted kept.old.bench.list stamp (event_of event)) }
    ensures frames { IfOk result (λ posting. posting.frames.items ≡ frames_posted kept.old.bench stamp (event_of event)) }
    ensures cried { IfOk result (λ posting. posting.cries ≡ cries_frame (event_of event)) }
    ensures spelled { IfOk result (λ posting. list_all has_spelling posting.frames.items ≡ true) }
    ensures stand { IfOk result (λ posting. posting.cries ≡ false → list_all (stands (setup_in kept.old.bench)) posting.frames.items ≡ true) }
{
    let said = stamp_posted(kept.bench(), stamp, &event);
    let frame = frame_cried(alloc, &event)?;
    let cries = frame.is_some();
    let mut frames = kept.act(scenario, stamp, event)?;
    push_if(&mut frames, frame)?;
    Ok(Posting {
        stamp: said,
        frames,
        cries,
    })
}
