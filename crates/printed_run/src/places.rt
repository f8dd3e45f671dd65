//! Where the entries of a history stand in their actors' own lists.
ghost use Rattle.std.specs.Prelude.{◌≡◌, ◌<◌, [], length, map, true, nat_lt, IfOk};
ghost use Rattle.std.specs.List.{list_all};
ghost use Rattle.world_entries.specs.Entries.{entry_of};
ghost use Rattle.printed_run.specs.Places.{places_from};

use plain_lists::Want;
use std::alloc::Global;
use world_entries::Entry;

/// The place of each entry in its actor's own list, where there are so many actors.
pub(crate) fn own_places(
    alloc: Global,
    actors: usize,
    entries: &[Entry],
) -> Result<Vec<usize>, Want>
    requires { list_all (λ e. nat_lt e.actor actors) entries.now ≡ true }
    ensures { IfOk result (λ places. places.items ≡ places_from [] (map entry_of entries.now)) }
{
    let mut places = Vec::with_capacity(alloc, entries.len())?;
    let mut counts = vec![in alloc; 0usize; actors]?;
    for entry in entries {
        let actor = entry.actor as usize;
        places.push(counts[actor])?;
        counts[actor] += 1;
    }
    Ok(places)
}
