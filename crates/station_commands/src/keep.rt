//! A file that an actor keeps, by its name.
ghost use Rattle.std.specs.Prelude.{◌≡◌, ◌≤◌, ℕ, List, Option, None, OnOk, IsErrOf};
ghost use Rattle.outside.specs.Faults.{HasRisen};
ghost use Rattle.station_files.specs.Held.{Held};

use outside::{KeepAnswer, LoadAnswer};
use station_files::{KeptFile, OpenAnswer, RealFile, open_kept};
use std::alloc::Global;
use std::fs::File;
use std::marker::Model;
use std::rt::Files as FileSystem;

/// A file that is opened by its name, and kept then. Before that nothing of it is touched.
pub trait Keep: KeptFile {
    // What the file of a name holds, where this is told.
    ghost lies: { Self → List ℕ → Option Held };

    /// Opens the file of this name, made where there is none, so that no other process has it.
    fn open(&mut self, name: &str) -> Result<(), OpenAnswer>
        ensures failed { IsErrOf result OpenAnswer.Failed → HasRisen (Self.faults self.old) (Self.faults self.new) }
        ensures counted { OnOk result (Self.faults self.new ≡ Self.faults self.old) }
        ensures opened { OnOk result (Self.held self.new ≡ lies self.old name.now) };
}

/// A file of a file system, once it is opened. What a system does with bytes is outside all that is proved, so it tells nothing.
#[derive(Drop)]
pub struct RealKeep<S: FileSystem<File = File>> {
    alloc: Global,
    system: S,
    file: Option<RealFile<File>>,
    faults: u64,
}

impl<S: FileSystem<File = File>> Model for RealKeep<S> {
    ghost use Rattle.std.specs.Prelude.{ℕ};

    ghost Value = { ℕ };

    ghost view = { λ real. real.faults };
}

impl<S: FileSystem<File = File>> RealKeep<S> {
    /// A file that isn't opened yet.
    pub fn make(alloc: Global, system: S) -> Self
        ensures { result ≡ 0 }
    {
        RealKeep {
            alloc,
            system,
            file: None,
            faults: 0,
        }
    }

    fn count_fault(&mut self)
        ensures never_falls { self.old ≤ self.new }
        ensures risen { HasRisen self.old self.new }
    {
        self.faults = self.faults.saturating_add(1);
    }
}

impl<S: FileSystem<File = File>> Keep for RealKeep<S> {
    ghost lies = { λ _ _. None };

    fn open(&mut self, name: &str) -> Result<(), OpenAnswer> {
        match open_kept(self.alloc, &self.system, name) {
            Ok(file) => {
                self.file = Some(file);
                Ok(())
            }
            Err(OpenAnswer::InUse) => Err(OpenAnswer::InUse),
            Err(OpenAnswer::Failed) => {
                self.count_fault();
                Err(OpenAnswer::Failed)
            }
        }
    }
}

impl<S: FileSystem<File = File>> KeptFile for RealKeep<S> {
    ghost faults = { λ count. count };

    ghost held = { λ _. None };

    fn recover(&mut self, room: u64) -> Result<Vec<u8>, LoadAnswer> {
        let answer = match &mut self.file {
            Some(file) => file.recover(room),
            None => Err(LoadAnswer::Failed),
        };
        if matches!(answer, Err(LoadAnswer::Failed)) {
            self.count_fault();
        }
        answer
    }

    fn append(&mut self, piece: &[u8]) -> Result<(), KeepAnswer> {
        let answer = match &mut self.file {
            Some(file) => file.append(piece),
            None => Err(KeepAnswer::Failed),
        };
        if matches!(answer, Err(KeepAnswer::Failed)) {
            self.count_fault();
        }
        answer
    }

    fn settle(&mut self) -> Result<(), KeepAnswer> {
        let answer = match &mut self.file {
            Some(file) => file.settle(),
            None => Err(KeepAnswer::Failed),
        };
        if matches!(answer, Err(KeepAnswer::Failed)) {
            self.count_fault();
        }
        answer
    }
}
