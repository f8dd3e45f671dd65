//! The inboxes of a run, and the hands with their passes.
ghost use Rattle.std.specs.Prelude.{◌≡◌, ◌<◌, length, map, Some, slice_get, All, IfOk};
ghost use Rattle.inboxes.specs.Passes.{IsPassOf};
ghost use Rattle.inboxes.specs.declared.inbox.Inbox.{Inbox as Box};
ghost use Rattle.replica_threads.specs.declared.posted.Posted.{Posted as Frame};
ghost use Rattle.replica_threads.specs.Hands.{ArePassesOf};
ghost use Rattle.replica_threads.specs.Courses.{hands_of, AreJobs, IsCrew};

use crate::Posted;
use crate::job::Job;
use inboxes::{Inbox, InboxPass};
use plain_lists::Want;
use station_turns::{Naming, Station};
use std::alloc::Global;

/// An inbox for each of so many actors, with the passes that all others are split off from.
pub(crate) fn empty_inboxes(
    alloc: Global,
    actors: u32,
) -> Result<(Vec<Inbox<Posted>>, Vec<InboxPass<Posted>>), Want>
    ensures all { IfOk result (λ made. length made.0.items ≡ actors) }
    ensures passes { IfOk result (λ made. ArePassesOf made.0.items made.1.items) }
{
    let mut inboxes = Vec::new(alloc);
    let mut passes = Vec::new(alloc);
    for _actor in 0..actors {
        let (inbox, pass) = Inbox::new(alloc)?;
        inboxes.push(inbox)?;
        passes.push(pass)?;
    }
    Ok((inboxes, passes))
}

/// One more pass of the inbox at a place.
fn split_off(
    inboxes: &[Inbox<Posted>],
    place: usize,
    passes: &mut Vec<InboxPass<Posted>>,
) -> Result<InboxPass<Posted>, Want>
    requires there { place < length inboxes.now }
    requires passes { ArePassesOf inboxes.now passes.old.items }
    ensures passes { ArePassesOf inboxes.now passes.new.items }
    ensures other { IfOk result (λ other. (inbox : Box Frame) → slice_get inboxes.now place ≡ Some inbox → IsPassOf inbox other) }
{
    inboxes[place].split(&mut passes[place])
}

/// One more pass of each inbox, in their order.
fn more_passes(
    alloc: Global,
    inboxes: &[Inbox<Posted>],
    passes: &mut Vec<InboxPass<Posted>>,
) -> Result<Vec<InboxPass<Posted>>, Want>
    requires passes { ArePassesOf inboxes.now passes.old.items }
    ensures passes { ArePassesOf inboxes.now passes.new.items }
    ensures others { IfOk result (λ others. ArePassesOf inboxes.now others.items) }
{
    let mut others = Vec::new(alloc);
    for place in 0..inboxes.len() {
        others.push(split_off(inboxes, place, passes)?)?;
    }
    Ok(others)
}

/// How many hands an actor has.
fn hands_of(actor: u32, masters: u32, hands: u32) -> u32
    ensures { result ≡ hands_of masters hands actor }
{
    if actor < masters { hands } else { 1 }
}

/// So many hands of an actor.
fn jobs(
    alloc: Global,
    count: u32,
    inboxes: &[Inbox<Posted>],
    passes: &mut Vec<InboxPass<Posted>>,
) -> Result<Vec<Job>, Want>
    requires passes { ArePassesOf inboxes.now passes.old.items }
    ensures passes { ArePassesOf inboxes.now passes.new.items }
    ensures jobs { IfOk result (λ jobs. AreJobs inboxes.now count jobs.items) }
{
    let mut jobs = Vec::new(alloc);
    for _hand in 0..count {
        let passes = more_passes(alloc, inboxes, passes)?;
        jobs.push(Job { passes })?;
    }
    Ok(jobs)
}

/// The stations with the hands of their actors: so many of each master, which have the lowest numbers, and one of each other
/// actor.
pub(crate) fn crews<N: Naming>(
    alloc: Global,
    masters: u32,
    hands: u32,
    inboxes: &[Inbox<Posted>],
    passes: &mut Vec<InboxPass<Posted>>,
    stations: Vec<Station<N>>,
) -> Result<Vec<(Vec<Job>, Station<N>)>, Want>
    requires passes { ArePassesOf inboxes.now passes.old.items }
    ensures passes { ArePassesOf inboxes.now passes.new.items }
    ensures hands { IfOk result (λ crews. All (IsCrew inboxes.now masters hands) crews.items) }
    ensures stations { IfOk result (λ crews. map (λ crew. crew.1) crews.items ≡ stations.items) }
{
    let mut crews = Vec::with_capacity(alloc, stations.len())?;
    for station in stations {
        let count = hands_of(station.actor(), masters, hands);
        let jobs = jobs(alloc, count, inboxes, passes)?;
        crews.push((jobs, station))?;
    }
    Ok(crews)
}
