ghost use Rattle.std.specs.Prelude.{◌≡◌, ◌≤◌, ℕ, Option, IfOk, IsErrOf, vec_len};
ghost use Rattle.outside.specs.Faults.{HasRisen};
ghost use Rattle.outside.specs.Keepers.{KeepCounts};
ghost use Rattle.station_files.specs.Held.{Held, AppendGives, SettleGives, RecoverGives, RecoverCounts};
ghost use Rattle.station_files.specs.WholeLines.{whole_lines};

use outside::{KeepAnswer, LoadAnswer};

/// A file of lines that one process keeps. What was appended may be lost when the machine stops, what was settled is not.
pub trait KeptFile {
    // How many faults came so far, at whatever call.
    ghost faults: { Self → ℕ };

    // What the file holds, where this is told.
    ghost held: { Self → Option Held };

    /// All lines of the file, of at most `room` bytes with what is torn. The bytes behind the last line feed are a line that was
    /// torn: they are cut off. What is left is durable.
    fn recover(&mut self, room: u64) -> Result<Vec<u8>, LoadAnswer>
        ensures never_falls { faults self.old ≤ faults self.new }
        ensures failed { IsErrOf result LoadAnswer.Failed → HasRisen (faults self.old) (faults self.new) }
        ensures counted { RecoverCounts result (faults self.old) (faults self.new) }
        ensures lines { IfOk result (λ text. whole_lines text.items ≡ text.items) }
        ensures within_room { IfOk result (λ text. vec_len text ≤ room) }
        ensures given { RecoverGives (held self.old) room result (held self.new) };

    /// Adds bytes at the end.
    fn append(&mut self, piece: &[u8]) -> Result<(), KeepAnswer>
        ensures never_falls { faults self.old ≤ faults self.new }
        ensures failed { IsErrOf result KeepAnswer.Failed → HasRisen (faults self.old) (faults self.new) }
        ensures counted { KeepCounts result (faults self.old) (faults self.new) }
        ensures added { AppendGives (held self.old) piece.now result (held self.new) };

    /// Makes all that was appended durable.
    fn settle(&mut self) -> Result<(), KeepAnswer>
        ensures never_falls { faults self.old ≤ faults self.new }
        ensures failed { IsErrOf result KeepAnswer.Failed → HasRisen (faults self.old) (faults self.new) }
        ensures counted { KeepCounts result (faults self.old) (faults self.new) }
        ensures settled { SettleGives (held self.old) result (held self.new) };
}
