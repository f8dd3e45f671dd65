ghost use Rattle.std.specs.Prelude.{◌≡◌, ◌≤◌, ℕ, List, Option, None, IfSome, IfOk, IsErrOf, vec_len};
ghost use Rattle.outside.specs.Faults.{HasRisen};
ghost use Rattle.outside.specs.Shelf.{LoadGives, LoadCounts};

use thiserror::Error;

/// Why a file was not loaded.
#[derive(Clone, Copy, Debug, PartialEq, Eq, Error)]
pub enum LoadAnswer {
    #[error("fault")]
    Failed,
    #[error("too long")]
    TooLong,
    #[error("want of memory")]
    Want,
}

/// Files that can be loaded by name.
pub trait Files {
    // How many faults came at loads of that name so far.
    ghost faults: { Self → List ℕ → ℕ };

    // What the file of that name holds, where this is told.
    ghost held: { Self → List ℕ → Option (List ℕ) };

    /// The whole of the file `name`, of at most `room` bytes.
    fn load(&mut self, name: &str, room: u64) -> Result<Vec<u8>, LoadAnswer>
        ensures never_falls { (other : List ℕ) → faults self.old other ≤ faults self.new other }
        ensures failed { IsErrOf result LoadAnswer.Failed → HasRisen (faults self.old name.now) (faults self.new name.now) }
        ensures counted { LoadCounts result (faults self.old) (faults self.new) }
        ensures content { IfSome (held self.old name.now) (λ content. LoadGives content room result) }
        ensures within_room { IfOk result (λ loaded. vec_len loaded ≤ room) }
        ensures kept { (other : List ℕ) → held self.new other ≡ held self.old other };
}
