ghost use Rattle.std.specs.Prelude.{◌≡◌, ◌≤◌, IfOk, OnOk, IfSome, IsErrOf, IsSomeAnd};
ghost use Rattle.outside.specs.Faults.{HasRisen};
ghost use Rattle.outside.specs.Keepers.{AppendGives, KeepCounts};
ghost use Rattle.entry_texts.specs.Texts.{kept_text};
ghost use Rattle.entry_texts.specs.Fits.{FitsEntry, HasCount};
ghost use Rattle.world_history.specs.Lists.{last_of};

use crate::Bench;
use entry_texts::spell_entry;
use outside::{KeepAnswer, Keeper};
use plain_lists::Want;
use std::alloc::Global;

// The bytes that are kept of the last entry.
pub(crate) fn spell_last(alloc: Global, bench: &Bench) -> Result<Vec<u8>, Want>
    requires { IsSomeAnd (last_of bench.now.list) (λ e. HasCount e.event) }
    ensures text { IfOk result (λ text. IfSome (last_of bench.now.list) (λ e. text.items ≡ kept_text e)) }
    ensures fits { OnOk result (IfSome (last_of bench.now.list) (λ e. FitsEntry e.stamp e.event)) }
{
    let Some(entry) = bench.list().last() else {
        unreachable!()
    };
    spell_entry(alloc, entry)
}

/// Adds the last entry's bytes to what is kept. It fails only where the keeper had a fault.
pub fn keep<K: Keeper>(alloc: Global, bench: &Bench, keeper: &mut K) -> Result<(), KeepAnswer>
    requires { IsSomeAnd (last_of bench.now.list) (λ e. HasCount e.event) }
    ensures added { IfSome (last_of bench.now.list) (λ e. AppendGives (K.kept keeper.old) (kept_text e) result (K.kept keeper.new)) }
    ensures fits { OnOk result (IfSome (last_of bench.now.list) (λ e. FitsEntry e.stamp e.event)) }
    ensures never_falls { K.faults keeper.old ≤ K.faults keeper.new }
    ensures failed { IsErrOf result KeepAnswer.Failed → HasRisen (K.faults keeper.old) (K.faults keeper.new) }
    ensures counted { KeepCounts result (K.faults keeper.old) (K.faults keeper.new) }
{
    match spell_last(alloc, bench) {
        Ok(text) => keeper.append(&text),
        Err(Want) => Err(KeepAnswer::Want),
    }
}
