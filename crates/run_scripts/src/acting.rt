//! Events in a play.
ghost use Rattle.std.specs.Prelude.{◌≡◌, ◌<◌, ◌^◌, false, true, length, nat_lt, IfOk, OnOk};
ghost use Rattle.std.specs.List.{list_all};
ghost use Rattle.scenario_file.specs.Reading.{contents};
ghost use Rattle.history_rules.specs.Events.{is_restart};
ghost use Rattle.history_rules.specs.Setup.{stands};
ghost use Rattle.history_rules.specs.Legal.{TakesWell};
ghost use Rattle.world_entries.specs.Entries.{event_of};
ghost use Rattle.world_rules.specs.Scenarios.{setup_of};
ghost use Rattle.world_history.specs.State.{setup_in, with_entry};
ghost use Rattle.world_history.specs.KeptState.{halted_in, frames_kept};
ghost use Rattle.script_laws.specs.Accepted.{may_do};
ghost use Rattle.run_scripts.specs.Making.{Making, is_cry, has_halted, most_entries, stamp_said, after, does};
ghost use Rattle.run_scripts.specs.Playing.{IsWorld, given_in, IsMaking, IsPlaying, Goes};

use crate::answer::StepRefusal;
use crate::playing::{Playing, World};
use crate::posting::posts_of;
use message_types::Frame;
use plain_lists::Want;
use world_history::{Bench, Event, Kept};

/// The most entries that a play may have.
pub(crate) const MOST_ENTRIES: u64 = 50_000;

/// The stamp at which the frames were said that are posted at an event.
fn stamp_said(bench: &Bench, stamp: u64, event: &Event) -> u64
    ensures { result ≡ stamp_said bench.now.list stamp (event_of event.now) }
{
    match (event, bench.list().last()) {
        (Event::Restart, Some(entry)) => entry.stamp,
        _ => stamp,
    }
}

fn is_restart(event: &Event) -> bool
    ensures { result ≡ is_restart (event_of event.now) }
{
    matches!(event, Event::Restart)
}

/// Adds an actor's entry. The frames to post, and the stamp at which they were said.
fn add_entry(
    world: &World<'_>,
    kept: &mut Kept,
    stamp: u64,
    event: Event,
) -> Result<(u64, Vec<Frame>), Want>
    requires scenario { contents world.now.scenario.now ≡ kept.old.bench.world }
    requires running { halted_in kept.old.bench ≡ false }
    requires fits { (setup_in kept.old.bench).fits kept.old.bench.actor (event_of event) ≡ true }
    requires later { list_all (λ e. nat_lt e.stamp stamp) kept.old.bench.list ≡ true }
    requires taken { TakesWell (setup_in kept.old.bench) stamp (event_of event) }
    requires short { length kept.old.bench.list < 2 ^ 32 }
    ensures entry { OnOk result (kept.new.bench ≡ with_entry kept.old.bench stamp (event_of event)) }
    ensures stamp { IfOk result (λ r. r.0 ≡ stamp_said kept.old.bench.list stamp (event_of event)) }
    ensures frames { IfOk result (λ r. r.1.items ≡ frames_kept kept.old.bench stamp (event_of event)) }
    ensures stand { IfOk result (λ r. list_all (stands (setup_in kept.old.bench)) r.1.items ≡ true) }
    ensures works { OnOk result (kept.new.is_spent ≡ false) }
{
    let said = stamp_said(kept.bench(), stamp, &event);
    let frames = kept.act(world.scenario, stamp, event)?;
    Ok((said, frames))
}

/// An event of an actor that hasn't halted, where there is room for an entry.
fn act(world: &World<'_>, playing: &mut Playing, actor: u32, event: Event) -> Result<(), Want>
    requires world { IsWorld world.now }
    requires playing { IsPlaying (given_in world.now) playing.old }
    requires running { (m : Making) → IsMaking (given_in world.now) m playing.old → has_halted (given_in world.now) m actor ≡ false }
    requires room { playing.old.entries < most_entries }
    requires role { may_do (contents world.now.scenario.now) actor (event_of event) ≡ true }
    requires other { is_cry (event_of event) ≡ false }
    requires taken { TakesWell (setup_of (contents world.now.scenario.now)) playing.old.entries (event_of event) }
    ensures { OnOk result ((m : Making) → IsMaking (given_in world.now) m playing.old
        → IsMaking (given_in world.now) (after (given_in world.now) actor (event_of event) m) playing.new) }
{
    let is_new = !is_restart(&event);
    let stamp = playing.entries;
    let (said, frames) = add_entry(world, &mut playing.kept[actor as usize], stamp, event)?;
    let posts = posts_of(world, actor, said, frames)?;
    playing.mail.post(&posts, is_new)?;
    playing.entries = stamp + 1;
    Ok(())
}

/// An event of an actor, unless it has halted.
pub(crate) fn does(
    world: &World<'_>,
    playing: &mut Playing,
    actor: u32,
    event: Event,
) -> Result<(), StepRefusal>
    requires world { IsWorld world.now }
    requires playing { IsPlaying (given_in world.now) playing.old }
    requires role { may_do (contents world.now.scenario.now) actor (event_of event) ≡ true }
    requires other { is_cry (event_of event) ≡ false }
    requires taken { TakesWell (setup_of (contents world.now.scenario.now)) playing.old.entries (event_of event) }
    ensures { (m : Making) → IsMaking (given_in world.now) m playing.old
        → Goes (given_in world.now) result (does (given_in world.now) actor (event_of event) m) playing.new }
{
    if playing.kept[actor as usize].halted() {
        return Ok(());
    }
    if playing.entries >= MOST_ENTRIES {
        return Err(StepRefusal::TooMany);
    }
    Ok(act(world, playing, actor, event)?)
}
