//! What several threads gave.
ghost use Rattle.std.specs.Prelude.{◌≡◌, length, IfOk};

use plain_lists::Want;
use station_turns::{Naming, Station};
use std::alloc::Global;

/// The stations that threads gave, in their order. `Want` where memory ran out, here or under one of them.
pub(crate) fn gathered<N: Naming>(
    alloc: Global,
    given: Vec<Result<Station<N>, Want>>,
) -> Result<Vec<Station<N>>, Want>
    ensures { IfOk result (λ stations. length stations.items ≡ length given.items) }
{
    let mut stations = Vec::with_capacity(alloc, given.len())?;
    for station in given {
        stations.push(station?)?;
    }
    Ok(stations)
}
