ghost use Rattle.std.specs.Prelude.{◌≡◌, ◌≤◌, ℕ, List, [], Option, None, Some, IsErrOf};
ghost use Rattle.outside.specs.Faults.{HasRisen};
ghost use Rattle.outside.specs.Piece.{PutGives, PutCounts};
ghost use Rattle.outside.specs.Tray.{TrayPuts};

use crate::sinks::{PutAnswer, Sink};
use std::alloc::Global;
use std::marker::Model;

/// A sink in memory, for tests. The listed calls of `put` fail and take nothing of their piece.
#[derive(Drop)]
pub struct MemorySink {
    bytes: Vec<u8>,
    failing: Vec<u64>,
    calls: u64,
    faults: u64,
}

impl Model for MemorySink {
    ghost use Rattle.outside.specs.Tray.{Tray};

    ghost Value = { Tray };

    ghost view = { λ sink. record { put = sink.bytes.items; failing = sink.failing.items; calls = sink.calls; faults = sink.faults } };
}

impl MemorySink {
    /// A sink of which the calls with these numbers, from 1, fail.
    pub fn make(alloc: Global, failing: Vec<u64>) -> Self
        ensures { result ≡ record { put = []; failing = failing.items; calls = 0; faults = 0 } }
    {
        MemorySink {
            bytes: Vec::new(alloc),
            failing,
            calls: 0,
            faults: 0,
        }
    }

    /// The bytes put so far.
    pub fn bytes(&self) -> &[u8]
        ensures { result.now ≡ self.now.put }
    {
        self.bytes.as_slice()
    }
}

impl Sink for MemorySink {
    ghost faults = { λ tray. tray.faults };

    ghost told = { λ tray. Some tray.put };

    fn put(&mut self, piece: &[u8]) -> Result<(), PutAnswer>
        ensures never_falls { self.old.faults ≤ self.new.faults }
        ensures failed { IsErrOf result PutAnswer.Failed → HasRisen self.old.faults self.new.faults }
        ensures counted { PutCounts result self.old.faults self.new.faults }
        ensures bytes { PutGives (Some self.old.put) piece.now result (Some self.new.put) }
        ensures exact { TrayPuts self.old piece.now result self.new }
    {
        let call = self.calls.saturating_add(1);
        if self.failing.contains(&call) {
            self.calls = call;
            self.faults = self.faults.saturating_add(1);
            return Err(PutAnswer::Failed);
        }
        self.bytes
            .extend_from_slice(piece)
            .map_err(|_| PutAnswer::Want)?;
        self.calls = call;
        Ok(())
    }
}

/// A sink in memory that never fails.
#[derive(Drop)]
pub struct SteadySink {
    bytes: Vec<u8>,
}

impl Model for SteadySink {
    ghost use Rattle.std.specs.Prelude.{List, ℕ};

    ghost Value = { List ℕ };

    ghost view = { λ sink. sink.bytes.items };
}

impl SteadySink {
    pub fn make(alloc: Global) -> Self
        ensures { result ≡ [] }
    {
        SteadySink {
            bytes: Vec::new(alloc),
        }
    }

    /// The bytes put so far.
    pub fn bytes(&self) -> &[u8]
        ensures { result.now ≡ self.now }
    {
        self.bytes.as_slice()
    }
}

impl Sink for SteadySink {
    ghost faults = { λ _. 0 };

    ghost told = { λ bytes. Some bytes };

    fn put(&mut self, piece: &[u8]) -> Result<(), PutAnswer> {
        self.bytes
            .extend_from_slice(piece)
            .map_err(|_| PutAnswer::Want)
    }
}
