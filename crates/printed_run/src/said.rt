//! Whether a frame that was taken is the one that was said where its entry tells.
ghost use Rattle.std.specs.Prelude.{◌≡◌, map, slice_get, IfOk, option_and_then, option_copied};
ghost use Rattle.history_rules.specs.Events.{Cry};
ghost use Rattle.scenario_file.specs.Reading.{contents};
ghost use Rattle.world_entries.specs.Entries.{entry_of, event_of};
ghost use Rattle.world_rules.specs.Frames.{cried, frames_at_stamp};
ghost use Rattle.world_rules.specs.Scenarios.{setup_of};
ghost use Rattle.printed_run.specs.Places.{IsAtHand};
ghost use Rattle.printed_run.specs.Printed.{is_frame, is_said};

use checked_frames::Checked;
use message_types::Frame;
use plain_lists::{Same, Want};
use scenario_file::Scenario;
use std::alloc::Global;
use world_entries::{Entry, Event};
use world_history::{Bench, cried};

/// A history with the benches of its actors and the places of its entries in their lists.
#[derive(Drop)]
pub(crate) struct AtHand<'a> {
    pub scenario: &'a Scenario,
    pub entries: &'a [Entry],
    pub benches: &'a [Bench],
    pub places: &'a [usize],
}

impl AtHand<'_> {
    /// Whether the frame that an event takes was said where the event tells.
    pub(crate) fn is_said(&self, alloc: Global, event: &Event) -> Result<bool, Want>
        requires { IsAtHand (contents self.now.scenario.now) (map entry_of self.now.entries.now) self.now.benches.now self.now.places.now }
        ensures { IfOk result (λ yes. yes ≡ is_said (setup_of (contents self.now.scenario.now)) (map entry_of self.now.entries.now) (event_of event.now)) }
    {
        match event {
            Event::Took {
                stamp,
                place,
                frame,
            } => self.was_said(alloc, *stamp, *place, frame.frame()),
            _ => Ok(false),
        }
    }

    fn was_said(&self, alloc: Global, stamp: u64, place: u32, frame: &Frame) -> Result<bool, Want>
        requires { IsAtHand (contents self.now.scenario.now) (map entry_of self.now.entries.now) self.now.benches.now self.now.places.now }
        ensures { IfOk result (λ yes. yes ≡ is_frame frame.now (slice_get (frames_at_stamp (setup_of (contents self.now.scenario.now)) (map entry_of self.now.entries.now) stamp) place)) }
    {
        let Some(entry) = self.entries.get(stamp as usize) else {
            return Ok(false);
        };
        match &entry.event {
            Event::Cry { bytes } => is_cried(alloc, bytes.as_slice(), place, frame),
            _ => {
                let bench = &self.benches[entry.actor as usize];
                let own_place = self.places[stamp as usize];
                Ok(is_posted(bench.frames_at(own_place), place, frame))
            }
        }
    }
}

fn is_posted(posted: Option<&[Checked]>, place: u32, frame: &Frame) -> bool
    ensures { result ≡ is_frame frame.now (option_and_then (λ frames. slice_get frames place) (option_copied posted.entry)) }
{
    match posted {
        Some(frames) => is_checked(frames.get(place as usize), frame),
        None => false,
    }
}

fn is_checked(said: Option<&Checked>, frame: &Frame) -> bool
    ensures { result ≡ is_frame frame.now (option_copied said.entry) }
{
    match said {
        Some(said) => said.frame().is_same(frame),
        None => false,
    }
}

/// Whether a cry's bytes spell the frame, and the place is that of a cry's only frame.
fn is_cried(alloc: Global, bytes: &[u8], place: u32, frame: &Frame) -> Result<bool, Want>
    ensures { IfOk result (λ yes. yes ≡ is_frame frame.now (slice_get (cried (Cry bytes.now)) place)) }
{
    if place != 0 {
        return Ok(false);
    }
    let found = cried(alloc, bytes)?;
    match found {
        Some(said) => Ok(said.is_same(frame)),
        None => Ok(false),
    }
}
