//! How delays spread: the median, the 90th and the 99th percentile and the greatest, for each client and each actor.
ghost use Rattle.std.specs.Prelude.{◌≡◌, ◌++◌, length, filter, if◌then◌else◌, nat_le, option_to_list, IfOk, OnOk};
ghost use Rattle.std.specs.List.{filter_map};
ghost use Rattle.protocol_rules.specs.Words.{greatest_reached};
ghost use Rattle.delay_times.specs.Spreads.{is_of, entries_if, ticks_if, if_any, figures_of, spread_of, spreads_at, spreads_of_client, spreads_in};

use crate::outcomes::Outcome;
use plain_lists::{Want, extend_option};
use std::alloc::Global;

/// Of some numbers: the greatest that more than half of them reach, that more than a tenth and more than a hundredth reach, and
/// the greatest of all. All are 0 where there are no numbers.
#[derive(Clone, Copy)]
pub struct Figures {
    pub median: u64,
    pub ninetieth: u64,
    pub ninety_ninth: u64,
    pub greatest: u64,
}

/// The outcomes of a client's updates at an actor.
#[derive(Clone, Copy)]
pub struct Spread {
    pub client: u32,
    pub actor: u32,
    /// How many updates the client said, and how many of them were executed or answered there.
    pub said: u64,
    pub ended: u64,
    /// Of these: their delays in entries, and in the actor's ticks.
    pub entries: Figures,
    pub ticks: Figures,
}

/// How many of the numbers are at least this one.
fn how_many_reach(numbers: &[u64], least: u64) -> usize
    ensures { result ≡ length (filter (λ y. nat_le least y) numbers.now) }
{
    numbers.iter().filter(|number| least <= **number).count()
}

/// The number, where so many of them reach it, else 0.
fn if_reached(numbers: &[u64], count: usize, number: u64) -> u64
    ensures { result ≡ (if nat_le count (length (filter (λ y. nat_le number y) numbers.now)) then number else 0) }
{
    if how_many_reach(numbers, number) >= count {
        number
    } else {
        0
    }
}

/// The greatest of the numbers that `count` of them reach, 0 where there is none.
fn greatest_reached(numbers: &[u64], count: usize) -> u64
    ensures { result ≡ greatest_reached count numbers.now }
{
    let mut greatest = 0;
    for number in numbers {
        greatest = greatest.max(if_reached(numbers, count, *number));
    }
    greatest
}

fn figures_of(numbers: &[u64]) -> Figures
    ensures { result ≡ figures_of numbers.now }
{
    let count = numbers.len();
    Figures {
        median: greatest_reached(numbers, count / 2 + 1),
        ninetieth: greatest_reached(numbers, count / 10 + 1),
        ninety_ninth: greatest_reached(numbers, count / 100 + 1),
        greatest: greatest_reached(numbers, 1),
    }
}

/// Whether it is the outcome of an update of the client at the actor.
fn is_of(client: u32, actor: u32, outcome: Outcome) -> bool
    ensures { result ≡ is_of client actor outcome }
{
    outcome.name.client == client && outcome.actor == actor
}

fn how_many_said(outcomes: &[Outcome], client: u32, actor: u32) -> usize
    ensures { result ≡ length (filter (is_of client actor) outcomes.now) }
{
    outcomes
        .iter()
        .filter(|outcome| is_of(client, actor, **outcome))
        .count()
}

/// The delay in entries, where it is such an outcome and has one.
fn entries_if(client: u32, actor: u32, outcome: Outcome) -> Option<u64>
    ensures { result ≡ entries_if client actor outcome }
{
    match outcome.delay {
        Some(delay) if is_of(client, actor, outcome) => Some(delay.entries),
        _ => None,
    }
}

/// The same in the actor's ticks.
fn ticks_if(client: u32, actor: u32, outcome: Outcome) -> Option<u64>
    ensures { result ≡ ticks_if client actor outcome }
{
    match outcome.delay {
        Some(delay) if is_of(client, actor, outcome) => Some(delay.ticks),
        _ => None,
    }
}

fn entries_of(
    alloc: Global,
    outcomes: &[Outcome],
    client: u32,
    actor: u32,
) -> Result<Vec<u64>, Want>
    ensures { IfOk result (λ numbers. numbers.items ≡ filter_map (entries_if client actor) outcomes.now) }
{
    let numbers = outcomes
        .iter()
        .filter_map(|outcome| entries_if(client, actor, *outcome))
        .collect(alloc)?;
    Ok(numbers)
}

fn ticks_of(alloc: Global, outcomes: &[Outcome], client: u32, actor: u32) -> Result<Vec<u64>, Want>
    ensures { IfOk result (λ numbers. numbers.items ≡ filter_map (ticks_if client actor) outcomes.now) }
{
    let numbers = outcomes
        .iter()
        .filter_map(|outcome| ticks_if(client, actor, *outcome))
        .collect(alloc)?;
    Ok(numbers)
}

#[tactic(auto, unfolding(crate::specs::Spreads::spread_of))]
fn spread_of(alloc: Global, outcomes: &[Outcome], client: u32, actor: u32) -> Result<Spread, Want>
    ensures { IfOk result (λ spread. spread ≡ spread_of outcomes.now client actor) }
{
    let entries = entries_of(alloc, outcomes, client, actor)?;
    let ticks = ticks_of(alloc, outcomes, client, actor)?;
    Ok(Spread {
        client,
        actor,
        said: how_many_said(outcomes, client, actor) as u64,
        ended: entries.len() as u64,
        entries: figures_of(entries.as_slice()),
        ticks: figures_of(ticks.as_slice()),
    })
}

/// The spread, where the client said any update.
fn if_any(spread: Spread) -> Option<Spread>
    ensures { option_to_list result ≡ if_any spread }
{
    if spread.said >= 1 { Some(spread) } else { None }
}

/// Appends the spread of a client's updates at an actor, if there are any.
fn add_spread(
    alloc: Global,
    spreads: &mut Vec<Spread>,
    outcomes: &[Outcome],
    client: u32,
    actor: u32,
) -> Result<(), Want>
    ensures { OnOk result (spreads.new.items ≡ spreads.old.items ++ spreads_at outcomes.now client actor) }
{
    let spread = spread_of(alloc, outcomes, client, actor)?;
    extend_option(spreads, if_any(spread))?;
    Ok(())
}

/// Appends those of a client's updates at all actors.
fn add_spreads(
    alloc: Global,
    spreads: &mut Vec<Spread>,
    outcomes: &[Outcome],
    client: u32,
    actors: u32,
) -> Result<(), Want>
    ensures { OnOk result (spreads.new.items ≡ spreads.old.items ++ spreads_of_client outcomes.now client actors) }
{
    for actor in 0..actors {
        add_spread(alloc, spreads, outcomes, client, actor)?;
    }
    Ok(())
}

/// All of them, client by client, in the order of the actors.
pub(crate) fn spreads_of(
    alloc: Global,
    outcomes: &[Outcome],
    clients: u32,
    actors: u32,
) -> Result<Vec<Spread>, Want>
    ensures { IfOk result (λ spreads. spreads.items ≡ spreads_in outcomes.now clients actors) }
{
    let mut spreads = Vec::new(alloc);
    for client in 0..clients {
        add_spreads(alloc, &mut spreads, outcomes, client, actors)?;
    }
    Ok(spreads)
}
