ghost use Rattle.std.specs.Prelude.{◌≡◌, map, IfOk};

use crate::Bench;
use crate::kept_actor::Kept;
use plain_lists::Want;
use std::alloc::Global;

/// The benches of actors, in the actors' order.
pub fn benches_of(alloc: Global, kept: Vec<Kept>) -> Result<Vec<Bench>, Want>
    ensures { IfOk result (λ benches. benches.items ≡ map (λ k. k.bench) kept.items) }
{
    let mut benches = Vec::with_capacity(alloc, kept.len())?;
    for actor in kept {
        benches.push(actor.into_bench())?;
    }
    Ok(benches)
}
