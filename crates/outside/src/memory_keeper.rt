ghost use Rattle.std.specs.Prelude.{◌≡◌, ◌≤◌, ℕ, List, [], Option, None, Some, IsErrOf, IfOk};
ghost use Rattle.outside.specs.Faults.{HasRisen};
ghost use Rattle.outside.specs.Keepers.{AppendGives, EntriesGive, KeepCounts, BinderAppends, BinderReads, lists_of};

use crate::keepers::{KeepAnswer, Keeper};
use std::alloc::{AllocError, Global};
use std::marker::Model;

/// A keeper in memory. Of its calls, appends and readings together, the listed ones fail. A failed append keeps nothing.
#[derive(Drop)]
pub struct MemoryKeeper {
    alloc: Global,
    entries: Vec<Vec<u8>>,
    failing: Vec<u64>,
    calls: u64,
    faults: u64,
}

impl Model for MemoryKeeper {
    ghost use Rattle.outside.specs.Keepers.{Binder, lists_of};

    ghost Value = { Binder };

    ghost view = { λ keeper. record { entries = lists_of keeper.entries.items; failing = keeper.failing.items; calls = keeper.calls; faults = keeper.faults } };
}

impl MemoryKeeper {
    /// A keeper of no entries yet, of which the calls with these numbers, from 1, fail.
    pub fn make(alloc: Global, failing: Vec<u64>) -> Self
        ensures { result ≡ record { entries = []; failing = failing.items; calls = 0; faults = 0 } }
    {
        MemoryKeeper {
            alloc,
            entries: Vec::new(alloc),
            failing,
            calls: 0,
            faults: 0,
        }
    }

    /// How many calls there were, the failed ones too.
    pub fn calls(&self) -> u64
        ensures { result ≡ self.now.calls }
    {
        self.calls
    }
}

impl Keeper for MemoryKeeper {
    ghost faults = { λ binder. binder.faults };

    ghost kept = { λ binder. Some binder.entries };

    fn append(&mut self, entry: &[u8]) -> Result<(), KeepAnswer>
        ensures never_falls { self.old.faults ≤ self.new.faults }
        ensures failed { IsErrOf result KeepAnswer.Failed → HasRisen self.old.faults self.new.faults }
        ensures counted { KeepCounts result self.old.faults self.new.faults }
        ensures added { AppendGives (Some self.old.entries) entry.now result (Some self.new.entries) }
        ensures exact { BinderAppends self.old entry.now result self.new }
    {
        let call = self.calls.saturating_add(1);
        if self.failing.contains(&call) {
            self.calls = call;
            self.faults = self.faults.saturating_add(1);
            return Err(KeepAnswer::Failed);
        }
        let entry = Vec::from_slice(self.alloc, entry).map_err(|_| KeepAnswer::Want)?;
        self.entries.push(entry).map_err(|_| KeepAnswer::Want)?;
        self.calls = call;
        Ok(())
    }

    fn entries(&mut self) -> Result<Vec<Vec<u8>>, KeepAnswer>
        ensures never_falls { self.old.faults ≤ self.new.faults }
        ensures failed { IsErrOf result KeepAnswer.Failed → HasRisen self.old.faults self.new.faults }
        ensures counted { KeepCounts result self.old.faults self.new.faults }
        ensures given { EntriesGive (Some self.old.entries) result }
        ensures unchanged { Some self.new.entries ≡ Some self.old.entries }
        ensures exact { BinderReads self.old result self.new }
    {
        let call = self.calls.saturating_add(1);
        if self.failing.contains(&call) {
            self.calls = call;
            self.faults = self.faults.saturating_add(1);
            return Err(KeepAnswer::Failed);
        }
        let given = copy_entries(self.alloc, &self.entries).map_err(|_| KeepAnswer::Want)?;
        self.calls = call;
        Ok(given)
    }
}

// A copy of each entry, in order.
fn copy_entries(alloc: Global, entries: &[Vec<u8>]) -> Result<Vec<Vec<u8>>, AllocError>
    ensures { IfOk result (λ given. lists_of given.items ≡ lists_of entries.now) }
{
    let mut given = Vec::with_capacity(alloc, entries.len())?;
    for entry in entries {
        given.push(Vec::from_slice(alloc, entry.as_slice())?)?;
    }
    Ok(given)
}
