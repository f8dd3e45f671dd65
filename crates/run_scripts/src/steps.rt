//! The steps of a script's lines.
ghost use Rattle.std.specs.Prelude.{◌≡◌, ◌++◌, ◌∷◌, ◌||◌, [], true, nat_eq, option_copied, IfOk, OnOk};
ghost use Rattle.quorum_sets.specs.Masters.{numbers_below};
ghost use Rattle.std.specs.List.{list_all, list_any};
ghost use Rattle.scenario_file.specs.Reading.{contents};
ghost use Rattle.scenario_file.specs.Valid.{IsScenario};
ghost use Rattle.world_entries.specs.Entries.{event_of};
ghost use Rattle.script_laws.specs.Accepted.{is_there, is_named, are_ticking, is_step_of};
ghost use Rattle.run_scripts.specs.Mail.{taking};
ghost use Rattle.run_scripts.specs.Making.{Making, times_over, all_tick, deliver, deliver_all, round, takes, ticking_in, other_than, goes};
ghost use Rattle.run_scripts.specs.Playing.{IsWorld, given_in, IsMaking, IsPlaying, Goes, is_due, FoundAs};

use crate::acting::does;
use crate::answer::StepRefusal;
use crate::crying::cry_times;
use crate::mail::{Delivery, Held};
use crate::playing::{Playing, World};
use plain_lists::{Copied, Want};
use play_words::Ref;
use scenario_file::Scenario;
use script_lines::{Step, Ticking};
use std::alloc::Global;
use std::mem;
use world_history::Event;

/// The actors that tick, in order.
fn ticking(alloc: Global, scenario: &Scenario, who: Ticking) -> Result<Vec<u32>, Want>
    requires { IsScenario (contents scenario.now) }
    ensures { IfOk result (λ actors. actors.items ≡ ticking_in (contents scenario.now) who) }
{
    match who {
        Ticking::Actor(actor) => one(alloc, actor),
        Ticking::Masters => numbers_below(alloc, scenario.sizes.n),
        Ticking::All => numbers_below(alloc, scenario.cast().actors()),
    }
}

fn one(alloc: Global, actor: u32) -> Result<Vec<u32>, Want>
    ensures { IfOk result (λ actors. actors.items ≡ actor ∷ []) }
{
    let mut actors = Vec::new(alloc);
    actors.push(actor)?;
    Ok(actors)
}

fn numbers_below(alloc: Global, end: u32) -> Result<Vec<u32>, Want>
    ensures { IfOk result (λ numbers. numbers.items ≡ numbers_below end) }
{
    let mut numbers = Vec::with_capacity(alloc, end as usize)?;
    for number in 0..end {
        numbers.push(number)?;
    }
    Ok(numbers)
}

/// These tick, one after the other.
fn all_tick(world: &World<'_>, playing: &mut Playing, actors: &[u32]) -> Result<(), StepRefusal>
    requires world { IsWorld world.now }
    requires playing { IsPlaying (given_in world.now) playing.old }
    requires there { list_all (is_there (contents world.now.scenario.now)) actors.now ≡ true }
    ensures { (m : Making) → IsMaking (given_in world.now) m playing.old
        → Goes (given_in world.now) result (all_tick (given_in world.now) actors.now m) playing.new }
{
    for actor in actors {
        does(world, playing, *actor, Event::Tick)?;
    }
    Ok(())
}

/// These tick, one after the other, so many times over.
fn tick_times(
    world: &World<'_>,
    playing: &mut Playing,
    actors: &[u32],
    times: u64,
) -> Result<(), StepRefusal>
    requires world { IsWorld world.now }
    requires playing { IsPlaying (given_in world.now) playing.old }
    requires there { list_all (is_there (contents world.now.scenario.now)) actors.now ≡ true }
    ensures { (m : Making) → IsMaking (given_in world.now) m playing.old
        → Goes (given_in world.now) result (times_over times (all_tick (given_in world.now) actors.now) m) playing.new }
{
    for _time in 0..times {
        all_tick(world, playing, actors)?;
    }
    Ok(())
}

fn tick(
    world: &World<'_>,
    playing: &mut Playing,
    who: Ticking,
    times: u64,
) -> Result<(), StepRefusal>
    requires world { IsWorld world.now }
    requires playing { IsPlaying (given_in world.now) playing.old }
    requires there { are_ticking (contents world.now.scenario.now) who ≡ true }
    ensures { (m : Making) → IsMaking (given_in world.now) m playing.old
        → Goes (given_in world.now) result (times_over times (all_tick (given_in world.now) (ticking_in (contents world.now.scenario.now) who)) m) playing.new }
{
    let actors = ticking(world.alloc, world.scenario, who)?;
    tick_times(world, playing, &actors, times)
}

fn is_lost(lost: &[u32], actor: u32) -> bool
    ensures { result ≡ list_any (nat_eq actor) lost.now }
{
    lost.iter().any(|other| actor == *other)
}

/// Whether the sender or the addressee is lost.
fn is_cut_off(lost: &[u32], delivery: &Delivery) -> bool
    ensures { result ≡ (list_any (nat_eq delivery.now.to) lost.now || list_any (nat_eq delivery.now.from) lost.now) }
{
    is_lost(lost, delivery.to) || is_lost(lost, delivery.from)
}

/// The event that takes a frame.
fn taking(held: &Held) -> Result<Event, Want>
    ensures { IfOk result (λ event. event_of event ≡ taking held.now) }
{
    Ok(Event::Took {
        stamp: held.stamp,
        place: held.place,
        frame: held.frame.copy()?,
    })
}

/// A delivery is taken by its addressee, or thrown away.
fn deliver(world: &World<'_>, playing: &mut Playing, delivery: &Delivery) -> Result<(), StepRefusal>
    requires world { IsWorld world.now }
    requires playing { IsPlaying (given_in world.now) playing.old }
    requires due { is_due (contents world.now.scenario.now) playing.old.entries delivery.now ≡ true }
    ensures { (m : Making) → IsMaking (given_in world.now) m playing.old
        → Goes (given_in world.now) result (deliver (given_in world.now) delivery.now m) playing.new }
{
    if is_cut_off(&playing.lost, delivery) {
        return Ok(());
    }
    let event = taking(&delivery.held)?;
    does(world, playing, delivery.to, event)
}

fn deliver_all(
    world: &World<'_>,
    playing: &mut Playing,
    waiting: &[Delivery],
) -> Result<(), StepRefusal>
    requires world { IsWorld world.now }
    requires playing { IsPlaying (given_in world.now) playing.old }
    requires due { list_all (is_due (contents world.now.scenario.now) playing.old.entries) waiting.now ≡ true }
    ensures { (m : Making) → IsMaking (given_in world.now) m playing.old
        → Goes (given_in world.now) result (deliver_all (given_in world.now) waiting.now m) playing.new }
{
    for delivery in waiting {
        deliver(world, playing, delivery)?;
    }
    Ok(())
}

/// All that waits is delivered, in order.
fn round(world: &World<'_>, playing: &mut Playing) -> Result<(), StepRefusal>
    requires world { IsWorld world.now }
    requires playing { IsPlaying (given_in world.now) playing.old }
    ensures { (m : Making) → IsMaking (given_in world.now) m playing.old
        → Goes (given_in world.now) result (round (given_in world.now) m) playing.new }
{
    let none = Vec::new(world.alloc);
    let waiting = mem::replace(&mut playing.mail.waiting, none);
    deliver_all(world, playing, &waiting)
}

fn flow(world: &World<'_>, playing: &mut Playing, rounds: u64) -> Result<(), StepRefusal>
    requires world { IsWorld world.now }
    requires playing { IsPlaying (given_in world.now) playing.old }
    ensures { (m : Making) → IsMaking (given_in world.now) m playing.old
        → Goes (given_in world.now) result (times_over rounds (round (given_in world.now)) m) playing.new }
{
    for _round in 0..rounds {
        round(world, playing)?;
    }
    Ok(())
}

/// The frame that was named, as it can be taken.
fn found(named: Option<&Option<Held>>) -> Result<Option<Event>, StepRefusal>
    ensures { FoundAs result (option_copied named.entry) }
{
    match named {
        None => Err(StepRefusal::NoFrame),
        Some(None) => Ok(None),
        Some(Some(held)) => Ok(Some(taking(held)?)),
    }
}

/// An actor takes a frame that was posted, whether it is lost or not.
fn take(world: &World<'_>, playing: &mut Playing, actor: u32, which: Ref) -> Result<(), StepRefusal>
    requires world { IsWorld world.now }
    requires playing { IsPlaying (given_in world.now) playing.old }
    requires there { is_there (contents world.now.scenario.now) actor ≡ true }
    requires named { is_named (contents world.now.scenario.now) which ≡ true }
    ensures { (m : Making) → IsMaking (given_in world.now) m playing.old
        → Goes (given_in world.now) result (takes (given_in world.now) actor which m) playing.new }
{
    if playing.kept[actor as usize].halted() {
        return Ok(());
    }
    match found(playing.mail.named(which))? {
        Some(event) => does(world, playing, actor, event),
        None => Ok(()),
    }
}

fn heal(lost: &mut Vec<u32>, actor: u32)
    ensures { lost.new.items ≡ other_than actor lost.old.items }
{
    lost.retain(|other| *other != actor);
}

fn lose(lost: &mut Vec<u32>, actor: u32) -> Result<(), Want>
    ensures { OnOk result (lost.new.items ≡ other_than actor lost.old.items ++ actor ∷ []) }
{
    heal(lost, actor);
    lost.push(actor)?;
    Ok(())
}

/// What a line does.
pub(crate) fn goes(world: &World<'_>, playing: &mut Playing, step: Step) -> Result<(), StepRefusal>
    requires world { IsWorld world.now }
    requires playing { IsPlaying (given_in world.now) playing.old }
    requires accepted { is_step_of (contents world.now.scenario.now) step ≡ true }
    ensures { (m : Making) → IsMaking (given_in world.now) m playing.old
        → Goes (given_in world.now) result (goes (given_in world.now) step m) playing.new }
{
    match step {
        Step::Tick { who, times } => tick(world, playing, who, times),
        Step::Flow { rounds } => flow(world, playing, rounds),
        Step::Lose { actor } => Ok(lose(&mut playing.lost, actor)?),
        Step::Heal { actor } => {
            heal(&mut playing.lost, actor);
            Ok(())
        }
        Step::Drop => {
            playing.mail.waiting = Vec::new(world.alloc);
            Ok(())
        }
        Step::Take { actor, frame } => take(world, playing, actor, frame),
        Step::Cry { master, times } => cry_times(world, playing, master, times),
        Step::Command { screen, op } => does(world, playing, screen, Event::Command { op }),
        Step::Field {
            proxy,
            area,
            place,
            value,
        } => does(world, playing, proxy, Event::Field { area, place, value }),
        Step::Poll { proxy } => does(world, playing, proxy, Event::Poll),
        Step::Restart { actor } => does(world, playing, actor, Event::Restart),
    }
}
