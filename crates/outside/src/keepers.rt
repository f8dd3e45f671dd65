ghost use Rattle.std.specs.Prelude.{◌≡◌, ◌≤◌, ℕ, List, Option, IsErrOf};
ghost use Rattle.outside.specs.Faults.{HasRisen};
ghost use Rattle.outside.specs.Keepers.{AppendGives, EntriesGive, KeepCounts};

use thiserror::Error;

/// Why an entry was not kept, or the entries were not read.
#[derive(Clone, Copy, Debug, PartialEq, Eq, Error)]
pub enum KeepAnswer {
    #[error("fault")]
    Failed,
    #[error("want of memory")]
    Want,
}

/// A place where entries are kept, in order.
pub trait Keeper {
    // How many faults came so far, at appends and readings together.
    ghost faults: { Self → ℕ };

    // The entries kept so far, where this is told.
    ghost kept: { Self → Option (List (List ℕ)) };

    /// Adds an entry.
    fn append(&mut self, entry: &[u8]) -> Result<(), KeepAnswer>
        ensures never_falls { faults self.old ≤ faults self.new }
        ensures failed { IsErrOf result KeepAnswer.Failed → HasRisen (faults self.old) (faults self.new) }
        ensures counted { KeepCounts result (faults self.old) (faults self.new) }
        ensures added { AppendGives (kept self.old) entry.now result (kept self.new) };

    /// All entries, in order.
    fn entries(&mut self) -> Result<Vec<Vec<u8>>, KeepAnswer>
        ensures never_falls { faults self.old ≤ faults self.new }
        ensures failed { IsErrOf result KeepAnswer.Failed → HasRisen (faults self.old) (faults self.new) }
        ensures counted { KeepCounts result (faults self.old) (faults self.new) }
        ensures given { EntriesGive (kept self.old) result }
        ensures unchanged { kept self.new ≡ kept self.old };
}
