ghost use Rattle.std.specs.Prelude.{◌≡◌, ◌++◌, ◌<◌, ℕ, OnOk, IfOk, slice_index};
ghost use Rattle.preorder.specs.PreorderState.{Where};
ghost use Rattle.reconcile.specs.Lacked.{one_lacking, lacking_of, all_lacking};

use crate::wanted::Wanted;
use plain_lists::Want;
use preorder::Preorder;
use quorum_sets::{MASTER_PLACES, Sizes};
use std::alloc::Global;

/// The requests that a master lacks, by master and number, up to where it wants those of each.
pub fn requests_lacking(
    alloc: Global,
    preorder: &Preorder,
    sizes: &Sizes,
    wanted_to: &[u64; MASTER_PLACES],
) -> Result<Vec<Wanted>, Want>
    requires { sizes.now.n ≡ preorder.now.group.n }
    ensures { IfOk result (λ list. Where preorder.now (λ g me taken known said. (to : ℕ → ℕ)
        → ((j : ℕ) → j < g.n → slice_index wanted_to.now j ≡ to j) → list.items ≡ all_lacking g known to)) }
{
    let mut lacking = Vec::new(alloc);
    for j in 0..sizes.n {
        push_lacking(&mut lacking, preorder, j, wanted_to[j as usize])?;
    }
    Ok(lacking)
}

fn push_lacking(lacking: &mut Vec<Wanted>, preorder: &Preorder, j: u32, to: u64) -> Result<(), Want>
    requires { j < preorder.now.group.n }
    ensures { OnOk result (Where preorder.now (λ g me taken known said.
        lacking.new.items ≡ lacking.old.items ++ lacking_of g known (λ i. to) j)) }
{
    let first = preorder.vector(j);
    for k in first..to {
        push_unless_certified(lacking, preorder, j, k + 1)?;
    }
    Ok(())
}

fn push_unless_certified(
    lacking: &mut Vec<Wanted>,
    preorder: &Preorder,
    j: u32,
    k: u64,
) -> Result<(), Want>
    ensures { OnOk result (lacking.new.items ≡ lacking.old.items ++ one_lacking preorder.now j k) }
{
    if preorder.certified(j, k).is_none() {
        lacking.push(Wanted::Request { j, k })?;
    }
    Ok(())
}
