//! A bench that has one entry more, and the frames of it that stand.
ghost use Rattle.std.specs.Prelude.{◌≡◌, ◌<◌, ◌≤◌, ◌^◌, ◌++◌, ◌∷◌, [], ℕ, Some, length, map, true, false, nat_lt, OnOk, IfOk, slice_get};
ghost use Rattle.std.specs.List.{list_all};
ghost use Rattle.std.specs.Option.{option_map};
ghost use Rattle.history_rules.specs.Setup.{stands};
ghost use Rattle.history_rules.specs.Legal.{TakesWell};
ghost use Rattle.world_entries.specs.Entries.{event_of, entry_of};
ghost use Rattle.world_rules.specs.Frames.{frames_of};
ghost use Rattle.world_history.specs.Signed.{ring_in};
ghost use Rattle.world_history.specs.State.{setup_in, entry_at, with_entry};
ghost use Rattle.printed_history.specs.Reading.{standing_frame, posted_of};

use crate::frames::standing_cried;
use checked_frames::{Checked, KeyRing};
use plain_lists::{Copied, Items, Want};
use std::alloc::Global;
use world_entries::{Entry, Event};
use world_history::Bench;

/// Adds the entry of an event to its actor's bench, and gives the entry with those of its frames that stand.
pub(crate) fn act_at(
    alloc: Global,
    ring: &KeyRing,
    bench: &mut Bench,
    stamp: u64,
    event: Event,
) -> Result<(Entry, Items<Checked>), Want>
    requires fits { (setup_in bench.old).fits bench.old.actor (event_of event) ≡ true }
    requires later { list_all (λ e. nat_lt e.stamp stamp) bench.old.list ≡ true }
    requires taken { TakesWell (setup_in bench.old) stamp (event_of event) }
    requires short { length bench.old.list < 2 ^ 32 }
    requires works { bench.old.is_spent ≡ false }
    requires ring { ring.now ≡ ring_in bench.old.world }
    ensures bench { OnOk result (bench.new ≡ with_entry bench.old stamp (event_of event)) }
    ensures entry { IfOk result (λ added. entry_of added.0 ≡ entry_at bench.old stamp (event_of event)) }
    ensures posted { IfOk result (λ added. (place : ℕ) → slice_get added.1 place
        ≡ standing_frame (setup_in bench.old) (slice_get (frames_of (setup_in bench.old) bench.old.list (entry_at bench.old stamp (event_of event))) place)) }
{
    bench.act(stamp, event)?;
    let list = bench.list();
    let last = list.len() - 1;
    let entry = list[last].copy()?;
    let posted = posted_at(alloc, ring, bench, last, &entry.event)?;
    Ok((entry, posted))
}

/// Of the frames of the entry at this place of its bench, which has this event, those that stand.
fn posted_at(
    alloc: Global,
    ring: &KeyRing,
    bench: &Bench,
    place: usize,
    event: &Event,
) -> Result<Items<Checked>, Want>
    requires works { bench.now.is_spent ≡ false }
    requires there { place < length bench.now.list }
    ensures { IfOk result (λ frames. frames ≡ posted_of ring.now bench.now place (event_of event.now)) }
{
    match event {
        Event::Cry { bytes } => standing_cried(alloc, ring, bytes.as_slice()),
        _ => match bench.frames_at(place) {
            Some(frames) => Items::from_slice(alloc, frames),
            None => unreachable!(),
        },
    }
}
