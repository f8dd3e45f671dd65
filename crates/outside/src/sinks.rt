ghost use Rattle.std.specs.Prelude.{◌≡◌, ◌≤◌, ℕ, List, Option, None, IsErrOf};
ghost use Rattle.outside.specs.Faults.{HasRisen};
ghost use Rattle.outside.specs.Piece.{PutGives, PutCounts};

use thiserror::Error;

/// Why a piece was not put whole.
#[derive(Clone, Copy, Debug, PartialEq, Eq, Error)]
pub enum PutAnswer {
    #[error("fault")]
    Failed,
    #[error("want of memory")]
    Want,
}

/// A place to which bytes are put, piece by piece.
pub trait Sink {
    // How many faults came so far.
    ghost faults: { Self → ℕ };

    // The bytes put so far, where this is told.
    ghost told: { Self → Option (List ℕ) };

    /// Appends a piece.
    fn put(&mut self, piece: &[u8]) -> Result<(), PutAnswer>
        ensures never_falls { faults self.old ≤ faults self.new }
        ensures failed { IsErrOf result PutAnswer.Failed → HasRisen (faults self.old) (faults self.new) }
        ensures counted { PutCounts result (faults self.old) (faults self.new) }
        ensures bytes { PutGives (told self.old) piece.now result (told self.new) };
}
