ghost use Rattle.std.specs.Prelude.{◌≡◌, ◌<◌, ◌++◌, ◌||◌, ◌&&◌, ℕ, true, false, not, OnOk, OnErr};
ghost use Rattle.std.specs.List.{list_any};
ghost use Rattle.protocol_rules.specs.Measures.{pings_said};
ghost use Rattle.suspect_leader.specs.declared.saying.Saying.{Saying as Say};
ghost use Rattle.suspect_leader.specs.declared.saying.Saying.TheVariants.{RoundTrip};
ghost use Rattle.suspect_leader.specs.Sayings.{says, same_saying, is_among};
ghost use Rattle.suspect_leader.specs.MeasureState.{IsMoved};

use crate::saying::{Saying, saying_of};
use message_types::Body;
use plain_lists::Want;
use std::alloc::Global;
use std::collections::BTreeSet;

/// Notes that an answer is owed, unless it was given.
pub(crate) fn owe(
    pending: &mut BTreeSet<Saying, Global>,
    said: &BTreeSet<Saying, Global>,
    answer: Saying,
) -> Result<(), Want>
    ensures ok { OnOk result ((s : Say) → is_among pending.new.keys s ≡ ((same_saying answer s && not (is_among said.now.keys s)) || is_among pending.old.keys s)) }
    ensures only { (s : Say) → is_among pending.new.keys s ≡ true → (same_saying answer s || is_among pending.old.keys s) ≡ true }
    ensures err { OnErr result (pending.new.keys ≡ pending.old.keys) }
{
    if said.contains(&answer) {
        return Ok(());
    }
    pending.insert(answer)?;
    Ok(())
}

/// Counts bodies as said, all of them or none. It calls itself once for each.
pub(crate) fn count(said: &mut BTreeSet<Saying, Global>, bodies: &[Body]) -> Result<(), Want>
    ensures ok { OnOk result ((s : Say) → is_among said.new.keys s ≡ (list_any (says s) bodies.now || is_among said.old.keys s)) }
    ensures err { OnErr result (said.new.keys ≡ said.old.keys) }
{
    let [first, rest @ ..] = bodies else {
        return Ok(());
    };
    let Some(saying) = saying_of(first) else {
        return count(said, rest);
    };
    let is_new = said.insert(saying)?;
    match count(said, rest) {
        Ok(()) => Ok(()),
        Err(want) => {
            if is_new {
                said.remove(&saying);
            }
            Err(want)
        }
    }
}

/// The answers given are no longer owed.
pub(crate) fn settle(pending: &mut BTreeSet<Saying, Global>, bodies: &[Body])
    ensures { (s : Say) → is_among pending.new.keys s ≡ (not (list_any (says s) bodies.now) && is_among pending.old.keys s) }
{
    for body in bodies {
        settle_one(pending, body);
    }
}

fn settle_one(pending: &mut BTreeSet<Saying, Global>, body: &Body)
    ensures { (s : Say) → is_among pending.new.keys s ≡ (not (says s body.now) && is_among pending.old.keys s) }
{
    if let Some(saying) = saying_of(body) {
        pending.remove(&saying);
    }
}

/// The round trips of masters below the bound that waited for a ping among the bodies needn't wait any longer.
pub(crate) fn release(
    pending: &mut BTreeSet<Saying, Global>,
    early: &mut BTreeSet<Saying, Global>,
    masters: u32,
    bodies: &[Body],
) -> Result<(), Want>
    ensures moved { IsMoved pending.old.keys early.old.keys pending.new.keys early.new.keys }
    ensures gone { OnOk result ((to number : ℕ) → to < masters → list_any (pings_said number) bodies.now ≡ true → is_among early.new.keys (RoundTrip to number) ≡ false) }
{
    for body in bodies {
        release_after(pending, early, masters, body)?;
    }
    Ok(())
}

fn release_after(
    pending: &mut BTreeSet<Saying, Global>,
    early: &mut BTreeSet<Saying, Global>,
    masters: u32,
    body: &Body,
) -> Result<(), Want>
    ensures moved { IsMoved pending.old.keys early.old.keys pending.new.keys early.new.keys }
    ensures gone { OnOk result ((to number : ℕ) → to < masters → pings_said number body.now ≡ true → is_among early.new.keys (RoundTrip to number) ≡ false) }
{
    match body {
        Body::Ping(word) => release_number(pending, early, masters, word.number),
        _ => Ok(()),
    }
}

fn release_number(
    pending: &mut BTreeSet<Saying, Global>,
    early: &mut BTreeSet<Saying, Global>,
    masters: u32,
    number: u64,
) -> Result<(), Want>
    ensures moved { IsMoved pending.old.keys early.old.keys pending.new.keys early.new.keys }
    ensures gone { OnOk result ((to : ℕ) → to < masters → is_among early.new.keys (RoundTrip to number) ≡ false) }
{
    for to in 0..masters {
        release_one(pending, early, Saying::RoundTrip { to, number })?;
    }
    Ok(())
}

/// It stands with the pending ones before it leaves the early ones, so it isn't lost where memory lacks.
fn release_one(
    pending: &mut BTreeSet<Saying, Global>,
    early: &mut BTreeSet<Saying, Global>,
    trip: Saying,
) -> Result<(), Want>
    ensures moved { IsMoved pending.old.keys early.old.keys pending.new.keys early.new.keys }
    ensures gone { OnOk result (is_among early.new.keys trip ≡ false) }
{
    if early.contains(&trip) {
        pending.insert(trip)?;
        early.remove(&trip);
    }
    Ok(())
}
