ghost use Rattle.std.specs.Prelude.{◌≡◌, ◌||◌, ◌++◌, ◌∷◌, [], OnOk, OnErr, IfOk, filter, map, take, if◌then◌else◌};
ghost use Rattle.reconcile.specs.Asking.{ask_for, is_among};
ghost use Rattle.reconcile.specs.Again.{is_due_kept, is_one_of};
ghost use Rattle.reconcile.specs.declared.wanted.Wanted.{Wanted as Thing};

use crate::wanted::{Wanted, asking};
use message_types::Body;
use plain_lists::Want;
use protocol_rules::BEAT;
use std::alloc::Global;
use std::collections::BTreeSet;

/// What is to be asked for now, at most so much of what is lacking.
pub(crate) fn due_among(
    alloc: Global,
    asked: &BTreeSet<Wanted, Global>,
    now: u64,
    lacking: &[Wanted],
    most: usize,
) -> Result<Vec<Wanted>, Want>
    ensures { IfOk result (λ due. due.items ≡ take most (filter (is_due_kept asked.now.keys now) lacking.now)) }
{
    let mut due = Vec::new(alloc);
    for wanted in lacking {
        push_if(&mut due, *wanted, is_due(asked, now, wanted))?;
    }
    due.truncate(most);
    Ok(due)
}

fn is_due(asked: &BTreeSet<Wanted, Global>, now: u64, wanted: &Wanted) -> bool
    ensures { result ≡ is_due_kept asked.now.keys now wanted.now }
{
    now % BEAT == 0 || !asked.contains(wanted)
}

fn push_if(due: &mut Vec<Wanted>, wanted: Wanted, is_due: bool) -> Result<(), Want>
    ensures { OnOk result (due.new.items ≡ due.old.items ++ (if is_due then wanted ∷ [] else [])) }
{
    if is_due {
        due.push(wanted)?;
    }
    Ok(())
}

/// The bodies that ask for each.
pub(crate) fn asking_each(alloc: Global, wanted: &[Wanted]) -> Result<Vec<Body>, Want>
    ensures { IfOk result (λ bodies. bodies.items ≡ map ask_for wanted.now) }
{
    let mut bodies = Vec::with_capacity(alloc, wanted.len())?;
    for one in wanted {
        bodies.push(asking(*one))?;
    }
    Ok(bodies)
}

/// Counts all as asked for, or none where there is no memory. It calls itself once for each.
pub(crate) fn count_each(
    asked: &mut BTreeSet<Wanted, Global>,
    wanted: &[Wanted],
) -> Result<(), Want>
    ensures ok { OnOk result ((w : Thing) → is_among asked.new.keys w ≡ (is_one_of wanted.now w || is_among asked.old.keys w)) }
    ensures err { OnErr result (asked.new.keys ≡ asked.old.keys) }
{
    let [first, rest @ ..] = wanted else {
        return Ok(());
    };
    let is_new = asked.insert(*first)?;
    match count_each(asked, rest) {
        Ok(()) => Ok(()),
        Err(want) => {
            if is_new {
                asked.remove(first);
            }
            Err(want)
        }
    }
}
