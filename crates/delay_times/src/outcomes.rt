//! What became of each update at each actor: when a correct master executed it, and when the screen that said it was answered.
ghost use Rattle.std.specs.Prelude.{◌≡◌, ◌++◌, option_to_list, position, IfOk, OnOk};
ghost use Rattle.std.specs.List.{flat_map};
ghost use Rattle.delay_times.specs.Happenings.{ends, ticks_of};
ghost use Rattle.delay_times.specs.Outcomes.{all_outcomes, delay_at, delay_of, own_outcome, outcome_of, outcomes_for};

use crate::happening::{Happening, Name, ends, is_tick};
use crate::sayings::{Saying, before, since};
use plain_lists::{Want, extend_option};
use std::alloc::Global;

/// What it took until an update was executed or answered.
#[derive(Clone, Copy)]
pub struct Delay {
    /// The stamp of the entry at which it was.
    pub stamp: u64,
    /// How many entries later than the saying that is.
    pub entries: u64,
    /// The actor's own ticks since the saying, one at that entry among them.
    pub ticks: u64,
}

/// What became of an update at an actor: at a correct master that executed it, or at the screen whose command it was and that was
/// answered.
#[derive(Clone, Copy)]
pub struct Outcome {
    pub name: Name,
    /// The stamp of the entry at which the client said the update.
    pub said: u64,
    pub actor: u32,
    /// How many ticks the actor had had by then.
    pub tick: u64,
    /// None where it never was.
    pub delay: Option<Delay>,
}

/// The place of the first execution or answer at the actor.
fn place_of_end(since: &[Happening], name: Name, actor: u32) -> Option<usize>
    ensures { result ≡ position (ends name actor) since.now }
{
    since
        .iter()
        .position(|happening| ends(name, actor, *happening))
}

/// The actor's delay, if it ends at this place of what happened since the saying.
fn delay_at(since: &[Happening], actor: u32, said: u64, place: usize) -> Option<Delay>
    ensures { result ≡ delay_at actor said since.now place }
{
    match since.get(place) {
        Some(end) => Some(Delay {
            stamp: end.stamp,
            entries: end.stamp.saturating_sub(said),
            ticks: ticks_of(actor, before(since, place)) as u64,
        }),
        None => None,
    }
}

/// The actor's delay, where `since` is what happened since the saying.
#[tactic(auto, unfolding(crate::specs::Outcomes::delay_of))]
fn delay_of(since: &[Happening], name: Name, actor: u32, said: u64) -> Option<Delay>
    ensures { result ≡ delay_of name actor said since.now }
{
    match place_of_end(since, name, actor) {
        Some(place) => delay_at(since, actor, said, place),
        None => None,
    }
}

/// How many of these are ticks of the actor.
fn ticks_of(actor: u32, happenings: &[Happening]) -> usize
    ensures { result ≡ ticks_of actor happenings.now }
{
    happenings
        .iter()
        .filter(|happening| is_tick(actor, **happening))
        .count()
}

/// The update's outcome at the actor.
fn outcome_of(happenings: &[Happening], saying: Saying, actor: u32) -> Outcome
    ensures { result ≡ outcome_of happenings.now saying actor }
{
    Outcome {
        name: saying.name,
        said: saying.stamp,
        actor,
        tick: ticks_of(actor, before(happenings, saying.place)) as u64,
        delay: delay_of(
            since(happenings, saying.place),
            saying.name,
            actor,
            saying.stamp,
        ),
    }
}

/// Appends the update's outcomes at these actors.
fn add_outcomes(
    outcomes: &mut Vec<Outcome>,
    happenings: &[Happening],
    saying: Saying,
    actors: &[u32],
) -> Result<(), Want>
    ensures { OnOk result (outcomes.new.items ≡ outcomes.old.items ++ outcomes_for happenings.now saying actors.now) }
{
    for actor in actors {
        outcomes.push(outcome_of(happenings, saying, *actor))?;
    }
    Ok(())
}

/// The outcome at the client itself, where it is a screen.
fn own_outcome(happenings: &[Happening], proxies: u32, saying: Saying) -> Option<Outcome>
    ensures { option_to_list result ≡ own_outcome happenings.now proxies saying }
{
    if saying.name.client < proxies {
        return None;
    }
    Some(outcome_of(happenings, saying, saying.actor))
}

/// Appends the update's outcomes at the correct masters, and at the client where it is a screen.
fn add_all_outcomes(
    outcomes: &mut Vec<Outcome>,
    happenings: &[Happening],
    proxies: u32,
    masters: &[u32],
    saying: Saying,
) -> Result<(), Want>
    ensures { OnOk result (outcomes.new.items ≡ outcomes.old.items ++ all_outcomes happenings.now proxies masters.now saying) }
{
    add_outcomes(outcomes, happenings, saying, masters)?;
    extend_option(outcomes, own_outcome(happenings, proxies, saying))?;
    Ok(())
}

/// The outcomes of these updates, in their order.
pub(crate) fn outcomes_of(
    alloc: Global,
    proxies: u32,
    masters: &[u32],
    happenings: &[Happening],
    sayings: &[Saying],
) -> Result<Vec<Outcome>, Want>
    ensures { IfOk result (λ outcomes. outcomes.items ≡ flat_map (all_outcomes happenings.now proxies masters.now) sayings.now) }
{
    let mut outcomes = Vec::new(alloc);
    for saying in sayings {
        add_all_outcomes(&mut outcomes, happenings, proxies, masters, *saying)?;
    }
    Ok(outcomes)
}
