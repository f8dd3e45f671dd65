ghost use Rattle.std.specs.Prelude.{◌≡◌, ◌≤◌, ℕ, List, [], Option, Some, IfOk, IsErrOf, length, min, take, vec_len};
ghost use Rattle.outside.specs.Faults.{HasRisen};
ghost use Rattle.outside.specs.Keepers.{KeepCounts};
ghost use Rattle.station_files.specs.Held.{AppendGives, SettleGives, RecoverGives, RecoverCounts};
ghost use Rattle.station_files.specs.Sheet.{Sheet, SheetAppends, SheetSettles, SheetRecovers, held_by};
ghost use Rattle.station_files.specs.WholeLines.{whole_lines};

use crate::kept_file::KeptFile;
use crate::whole_lines::whole_length;
use outside::{KeepAnswer, LoadAnswer};
use std::alloc::Global;
use std::marker::Model;

/// A kept file in memory, for tests. The listed calls fail, an append among them after it took the beginning of its piece.
#[derive(Drop)]
pub struct MemoryFile {
    alloc: Global,
    bytes: Vec<u8>,
    durable: usize,
    failing: Vec<u64>,
    torn: usize,
    calls: u64,
    faults: u64,
}

impl Model for MemoryFile {
    ghost use Rattle.station_files.specs.Sheet.{Sheet};

    ghost Value = { Sheet };

    ghost view = { λ file. record { bytes = file.bytes.items; durable = file.durable; failing = file.failing.items; torn = file.torn; calls = file.calls; faults = file.faults } };
}

impl MemoryFile {
    /// A file that has these bytes, of which none is known to be durable. The calls with the numbers of `failing`, from 1, fail,
    /// and an append that fails takes at most `torn` bytes of its piece.
    pub fn make(alloc: Global, bytes: Vec<u8>, failing: Vec<u64>, torn: usize) -> Self
        ensures { result ≡ record { bytes = bytes.items; durable = 0; failing = failing.items; torn = torn; calls = 0; faults = 0 } }
    {
        MemoryFile {
            alloc,
            bytes,
            durable: 0,
            failing,
            torn,
            calls: 0,
            faults: 0,
        }
    }

    /// All that it holds.
    pub fn bytes(&self) -> &[u8]
        ensures { result.now ≡ self.now.bytes }
    {
        self.bytes.as_slice()
    }

    /// What of it is there after the machine stopped.
    pub fn durable(&self) -> &[u8]
        ensures { result.now ≡ take (min self.now.durable (length self.now.bytes)) self.now.bytes }
    {
        let durable = self.durable.min(self.bytes.len());
        self.bytes.as_slice().split_at(durable).0
    }
}

impl KeptFile for MemoryFile {
    ghost faults = { λ sheet. sheet.faults };

    ghost held = { held_by };

    fn recover(&mut self, room: u64) -> Result<Vec<u8>, LoadAnswer>
        ensures never_falls { self.old.faults ≤ self.new.faults }
        ensures failed { IsErrOf result LoadAnswer.Failed → HasRisen self.old.faults self.new.faults }
        ensures counted { RecoverCounts result self.old.faults self.new.faults }
        ensures lines { IfOk result (λ text. whole_lines text.items ≡ text.items) }
        ensures within_room { IfOk result (λ text. vec_len text ≤ room) }
        ensures given { RecoverGives (held_by self.old) room result (held_by self.new) }
        ensures exact { SheetRecovers self.old room result self.new }
    {
        let call = self.calls.saturating_add(1);
        if self.failing.contains(&call) {
            self.calls = call;
            self.faults = self.faults.saturating_add(1);
            return Err(LoadAnswer::Failed);
        }
        if self.bytes.len() as u64 > room {
            self.calls = call;
            return Err(LoadAnswer::TooLong);
        }
        let whole = whole_length(self.bytes.as_slice());
        let lines = self.bytes.as_slice().split_at(whole).0;
        let text = Vec::from_slice(self.alloc, lines).map_err(|_| LoadAnswer::Want)?;
        self.bytes.truncate(whole);
        self.durable = whole;
        self.calls = call;
        Ok(text)
    }

    fn append(&mut self, piece: &[u8]) -> Result<(), KeepAnswer>
        ensures never_falls { self.old.faults ≤ self.new.faults }
        ensures failed { IsErrOf result KeepAnswer.Failed → HasRisen self.old.faults self.new.faults }
        ensures counted { KeepCounts result self.old.faults self.new.faults }
        ensures added { AppendGives (held_by self.old) piece.now result (held_by self.new) }
        ensures exact { SheetAppends self.old piece.now result self.new }
    {
        let call = self.calls.saturating_add(1);
        if self.failing.contains(&call) {
            let beginning = piece.split_at(self.torn.min(piece.len())).0;
            self.bytes
                .extend_from_slice(beginning)
                .map_err(|_| KeepAnswer::Want)?;
            self.calls = call;
            self.faults = self.faults.saturating_add(1);
            return Err(KeepAnswer::Failed);
        }
        self.bytes
            .extend_from_slice(piece)
            .map_err(|_| KeepAnswer::Want)?;
        self.calls = call;
        Ok(())
    }

    fn settle(&mut self) -> Result<(), KeepAnswer>
        ensures never_falls { self.old.faults ≤ self.new.faults }
        ensures failed { IsErrOf result KeepAnswer.Failed → HasRisen self.old.faults self.new.faults }
        ensures counted { KeepCounts result self.old.faults self.new.faults }
        ensures settled { SettleGives (held_by self.old) result (held_by self.new) }
        ensures exact { SheetSettles self.old result self.new }
    {
        let call = self.calls.saturating_add(1);
        self.calls = call;
        if self.failing.contains(&call) {
            self.faults = self.faults.saturating_add(1);
            return Err(KeepAnswer::Failed);
        }
        self.durable = self.bytes.len();
        Ok(())
    }
}
