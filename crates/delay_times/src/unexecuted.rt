//! The updates that not all correct masters executed.
ghost use Rattle.std.specs.Prelude.{◌≡◌, option_to_list, IfOk};
ghost use Rattle.std.specs.List.{flat_map, list_any};
ghost use Rattle.delay_times.specs.Happenings.{ends};
ghost use Rattle.delay_times.specs.Unexecuted.{executed_by, unexecuted_if};

use crate::happening::{Happening, Name, ends};
use crate::sayings::{Saying, since};
use plain_lists::{Want, extend_option};
use std::alloc::Global;

/// An update that not all correct masters executed.
#[derive(Clone, Copy)]
pub struct Unexecuted {
    pub name: Name,
    /// The stamp of the entry at which the client said it.
    pub said: u64,
    /// How many correct masters executed it.
    pub executed: u64,
}

fn has_end(since: &[Happening], name: Name, actor: u32) -> bool
    ensures { result ≡ list_any (ends name actor) since.now }
{
    since.iter().any(|happening| ends(name, actor, *happening))
}

/// How many of the masters executed the update, where `since` is what happened since it was said.
fn executed_by(since: &[Happening], name: Name, masters: &[u32]) -> usize
    ensures { result ≡ executed_by since.now name masters.now }
{
    masters
        .iter()
        .filter(|master| has_end(since, name, **master))
        .count()
}

/// The update, where fewer than all masters executed it.
fn unexecuted_if(happenings: &[Happening], masters: &[u32], saying: Saying) -> Option<Unexecuted>
    ensures { option_to_list result ≡ unexecuted_if happenings.now masters.now saying }
{
    let executed = executed_by(since(happenings, saying.place), saying.name, masters);
    if executed < masters.len() {
        return Some(Unexecuted {
            name: saying.name,
            said: saying.stamp,
            executed: executed as u64,
        });
    }
    None
}

/// Those of these updates that not all masters executed, in their order.
pub(crate) fn unexecuted_of(
    alloc: Global,
    masters: &[u32],
    happenings: &[Happening],
    sayings: &[Saying],
) -> Result<Vec<Unexecuted>, Want>
    ensures { IfOk result (λ unexecuted. unexecuted.items ≡ flat_map (unexecuted_if happenings.now masters.now) sayings.now) }
{
    let mut unexecuted = Vec::new(alloc);
    for saying in sayings {
        extend_option(&mut unexecuted, unexecuted_if(happenings, masters, *saying))?;
    }
    Ok(unexecuted)
}
