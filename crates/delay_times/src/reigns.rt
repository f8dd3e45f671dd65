//! The views in turn, each with its leader's votes and how long no correct master executed anything.
ghost use Rattle.std.specs.Prelude.{◌≡◌, ◌<◌, length, IfOk};
ghost use Rattle.std.specs.List.{list_any};
ghost use Rattle.delay_times.specs.Reigns.{begun_after, entered, executed_between, is_vote, latest_after, longest_idle, reign_at, reign_of, reigns_in, stamp_at, views_begun, votes_against};

use crate::happening::{Happening, What};
use plain_lists::{Want, extend_option};
use std::alloc::Global;

/// A view from the entry at which the first correct master came into it to the entry at which one came into a later view.
#[derive(Clone, Copy)]
pub struct Reign {
    pub view: u64,
    pub from: u64,
    /// None where no correct master came into a later one.
    pub to: Option<u64>,
    /// How many correct masters voted against its leader.
    pub votes: u64,
    /// The longest stretch of entries in it at which no correct master executed anything.
    pub idle: u64,
}

/// A view, and the stamp of the entry at which it began.
#[derive(Clone, Copy)]
pub struct Begun {
    pub view: u64,
    pub stamp: u64,
}

/// The view that a correct master came into, if one did.
fn entered(what: What) -> Option<u64>
    ensures { result ≡ entered what }
{
    match what {
        What::Entered { view } => Some(view),
        _ => None,
    }
}

/// The view that began there, where `latest` is the latest that one came into before.
fn begun_after(latest: u64, happening: Happening) -> Option<Begun>
    ensures { result ≡ begun_after latest happening }
{
    match entered(happening.what) {
        Some(view) if latest < view => Some(Begun {
            view,
            stamp: happening.stamp,
        }),
        _ => None,
    }
}

/// The latest view, once this one began, if one did.
fn latest_after(latest: u64, next: Option<Begun>) -> u64
    ensures { result ≡ latest_after latest next }
{
    match next {
        Some(next) => next.view,
        None => latest,
    }
}

/// The views that began: 0 at first, then each that a correct master came into before any came into a later one.
#[tactic(auto, unfolding(crate::specs::Reigns::views_begun))]
fn views_begun(alloc: Global, happenings: &[Happening]) -> Result<Vec<Begun>, Want>
    ensures { IfOk result (λ begun. begun.items ≡ views_begun happenings.now) }
{
    let mut begun = Vec::new(alloc);
    begun.push(Begun { view: 0, stamp: 0 })?;
    let mut latest = 0;
    for happening in happenings {
        let next = begun_after(latest, *happening);
        latest = latest_after(latest, next);
        extend_option(&mut begun, next)?;
    }
    Ok(begun)
}

fn is_vote(view: u64, master: u32, happening: Happening) -> bool
    ensures { result ≡ is_vote view master happening }
{
    happening.actor == master
        && match happening.what {
            What::Voted { view: against } => against == view,
            _ => false,
        }
}

fn has_voted(happenings: &[Happening], view: u64, master: u32) -> bool
    ensures { result ≡ list_any (is_vote view master) happenings.now }
{
    happenings
        .iter()
        .any(|happening| is_vote(view, master, *happening))
}

/// How many of the masters voted against the leader of the view.
fn votes_against(happenings: &[Happening], view: u64, masters: &[u32]) -> usize
    ensures { result ≡ votes_against happenings.now view masters.now }
{
    masters
        .iter()
        .filter(|master| has_voted(happenings, view, **master))
        .count()
}

/// The stamp of an execution at an entry from one stamp up to another.
fn executed_between(from: u64, to: u64, happening: Happening) -> Option<u64>
    ensures { result ≡ executed_between from to happening }
{
    match happening.what {
        What::Executed { .. } if from <= happening.stamp && happening.stamp < to => {
            Some(happening.stamp)
        }
        _ => None,
    }
}

/// The longest stretch of entries from one stamp up to another at which nothing was executed.
#[tactic(auto, unfolding(crate::specs::Reigns::longest_idle))]
fn longest_idle(happenings: &[Happening], from: u64, to: u64) -> u64
    ensures { result ≡ longest_idle happenings.now from to }
{
    let mut last = from;
    let mut longest = 0;
    for happening in happenings {
        if let Some(stamp) = executed_between(from, to, *happening) {
            longest = stamp.saturating_sub(last).max(longest);
            last = stamp;
        }
    }
    to.saturating_sub(last).max(longest)
}

/// The view that began, up to the next one or to the end of so many entries.
fn reign_of(
    happenings: &[Happening],
    masters: &[u32],
    entries: u64,
    begun: Begun,
    to: Option<u64>,
) -> Reign
    ensures { result ≡ reign_of happenings.now masters.now entries begun to }
{
    Reign {
        view: begun.view,
        from: begun.stamp,
        to,
        votes: votes_against(happenings, begun.view, masters) as u64,
        idle: longest_idle(happenings, begun.stamp, to.unwrap_or(entries)),
    }
}

fn stamp_at(begun: &[Begun], place: usize) -> Option<u64>
    ensures { result ≡ stamp_at begun.now place }
{
    match begun.get(place) {
        Some(next) => Some(next.stamp),
        None => None,
    }
}

/// The view at a place of those that began, up to the next one or to the end of so many entries.
fn reign_at(
    happenings: &[Happening],
    masters: &[u32],
    entries: u64,
    begun: &[Begun],
    place: usize,
) -> Option<Reign>
    requires { place < length begun.now }
    ensures { result ≡ reign_at happenings.now masters.now entries begun.now place }
{
    let to = stamp_at(begun, place + 1);
    match begun.get(place) {
        Some(view) => Some(reign_of(happenings, masters, entries, *view, to)),
        None => None,
    }
}

/// All views in turn.
#[tactic(auto, unfolding(crate::specs::Reigns::reigns_in))]
pub(crate) fn reigns_of(
    alloc: Global,
    masters: &[u32],
    happenings: &[Happening],
    entries: u64,
) -> Result<Vec<Reign>, Want>
    ensures { IfOk result (λ reigns. reigns.items ≡ reigns_in masters.now happenings.now entries) }
{
    let begun = views_begun(alloc, happenings)?;
    let mut reigns = Vec::new(alloc);
    for place in 0..begun.len() {
        let reign = reign_at(happenings, masters, entries, begun.as_slice(), place);
        extend_option(&mut reigns, reign)?;
    }
    Ok(reigns)
}
