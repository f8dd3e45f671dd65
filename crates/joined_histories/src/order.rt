//! Whose entry comes next.
ghost use Rattle.std.specs.Prelude.{◌≡◌, ◌≤◌, ◌<◌, ℕ, IfOk, IfSome, MatchOption, length, true, false};
ghost use Rattle.scenario_file.specs.Reading.{contents};
ghost use Rattle.world_rules.specs.Scenarios.{setup_of};
ghost use Rattle.joined_histories.specs.Order.{IsDue, NoneLeft, is_left, is_ready};

use crate::digests::Heard;
use crate::files::Kept;
use crate::waits::next_waits;
use plain_lists::Want;
use scenario_file::Scenario;
use std::alloc::Global;

/// Whether an actor has an entry left, of which so many of each were joined.
fn is_left(kept: &Kept, next: &[usize], actor: u32) -> bool
    ensures { result ≡ is_left kept.now.lists.items next.now actor }
{
    match kept.lists.get(actor as usize) {
        Some(list) => match next.get(actor as usize) {
            Some(joined) => *joined < list.len(),
            None => false,
        },
        None => false,
    }
}

/// Whether an actor has an entry left that takes no word that is still to come.
fn is_ready(
    alloc: Global,
    scenario: &Scenario,
    kept: &Kept,
    next: &[usize],
    actor: u32,
) -> Result<bool, Want>
    ensures { IfOk result (λ ready. ready ≡ is_ready (setup_of (contents scenario.now)) kept.now.lists.items next.now actor) }
{
    if !is_left(kept, next, actor) {
        return Ok(false);
    }
    let waits = next_waits(alloc, scenario, kept, next, actor)?;
    Ok(!waits)
}

/// The first actor from this one on that is ready, and whose next entry's frame was said where it is waited for.
fn heard_from(
    alloc: Global,
    scenario: &Scenario,
    kept: &Kept,
    next: &[usize],
    heard: &Heard,
    from: u32,
    actors: u32,
) -> Result<Option<u32>, Want>
    ensures { IfOk result (λ found. IfSome found (λ actor. is_ready (setup_of (contents scenario.now)) kept.now.lists.items next.now actor ≡ true)) }
{
    for actor in from..actors {
        if heard.is_said(actor) {
            let ready = is_ready(alloc, scenario, kept, next, actor)?;
            if ready {
                return Ok(Some(actor));
            }
        }
    }
    Ok(None)
}

/// The first actor that is ready.
fn first_ready(
    alloc: Global,
    scenario: &Scenario,
    kept: &Kept,
    next: &[usize],
    actors: u32,
) -> Result<Option<u32>, Want>
    ensures { IfOk result (λ found. MatchOption found ((actor : ℕ) → actor < actors → is_ready (setup_of (contents scenario.now)) kept.now.lists.items next.now actor ≡ false) (λ actor. is_ready (setup_of (contents scenario.now)) kept.now.lists.items next.now actor ≡ true)) }
{
    for actor in 0..actors {
        let ready = is_ready(alloc, scenario, kept, next, actor)?;
        if ready {
            return Ok(Some(actor));
        }
    }
    Ok(None)
}

/// The actor whose entry comes next, if any has one left: the first from this one on, and round, that is ready and whose frame was
/// said where it is waited for; else the first that is ready; else the lowest.
pub(crate) fn next_actor(
    alloc: Global,
    scenario: &Scenario,
    kept: &Kept,
    next: &[usize],
    heard: &Heard,
    from: u32,
    actors: u32,
) -> Result<Option<u32>, Want>
    requires { length kept.now.lists.items ≤ actors }
    ensures { IfOk result (λ found. MatchOption found (NoneLeft kept.now.lists.items next.now) (λ actor. IsDue (setup_of (contents scenario.now)) kept.now.lists.items next.now actor)) }
{
    let ahead = heard_from(alloc, scenario, kept, next, heard, from, actors)?;
    if let Some(actor) = ahead {
        return Ok(Some(actor));
    }
    let behind = heard_from(alloc, scenario, kept, next, heard, 0, actors)?;
    if let Some(actor) = behind {
        return Ok(Some(actor));
    }
    let ready = first_ready(alloc, scenario, kept, next, actors)?;
    if let Some(actor) = ready {
        return Ok(Some(actor));
    }
    Ok(lowest(kept, next, actors))
}

/// The lowest actor with an entry left.
fn lowest(kept: &Kept, next: &[usize], actors: u32) -> Option<u32>
    requires { length kept.now.lists.items ≤ actors }
    ensures { MatchOption result (NoneLeft kept.now.lists.items next.now) (λ actor. is_left kept.now.lists.items next.now actor ≡ true) }
{
    for actor in 0..actors {
        if is_left(kept, next, actor) {
            return Some(actor);
        }
    }
    None
}
