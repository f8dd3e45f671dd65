ghost use Rattle.std.specs.Prelude.{◌≡◌, ◌<◌, filter, length, IfOk, OnOk, OnErr};
ghost use Rattle.std.specs.List.Sorted.{IsNonDecreasingBy};
ghost use Rattle.trend_archive.specs.declared.change.Changed.{Changed};
ghost use Rattle.trend_archive.specs.Trends.{is_between, with_change};

use crate::change::Changed;
use plain_lists::{Items, Want};
use std::alloc::Global;

/// The changes by the updates number `first` to `last`. It finds both ends by halving.
pub fn between(list: &[Changed], first: u64, last: u64) -> &[Changed]
    ensures { IsNonDecreasingBy (λ (change : Changed). change.number) list.now → result.now ≡ filter (is_between first last) list.now }
{
    let start = list.partition_point(|change| change.number < first);
    let later = &list[start..];
    let end = later.partition_point(|change| change.number <= last);
    &later[..end]
}

pub fn list_of(alloc: Global, changes: &[Changed]) -> Result<Items<Changed>, Want>
    ensures { IfOk result (λ list. list ≡ changes.now) }
{
    Ok(Items::from_vec(alloc, Vec::from_slice(alloc, changes)?))
}

/// Puts a change at the end of a point's list. Without memory for it the lists stay as they were.
pub fn add(lists: &mut [Items<Changed>], point: usize, change: Changed) -> Result<(), Want>
    requires { point < length lists.old }
    ensures ok { OnOk result (lists.new ≡ with_change point change lists.old) }
    ensures err { OnErr result (lists.new ≡ lists.old) }
{
    lists[point].push(change)
}
