//! Which frames a station took, by their digests.
ghost use Rattle.std.specs.Prelude.{◌≡◌, ◌++◌, ◌∷◌, [], List, map, IfOk, OnOk};
ghost use Rattle.std.specs.List.{list_any};
ghost use Rattle.history_rules.specs.Events.{Entry as HistoryEntry};
ghost use Rattle.world_entries.specs.Entries.{entry_of};
ghost use Rattle.station_rules.specs.Coming.{takes_frame};
ghost use Rattle.stations.specs.Taken.{AreTaken, HasFrame};

use checked_frames::Checked;
use indexmap::IndexSet;
use message_forms::write_frame;
use plain_lists::Want;
use sha2::{Digest, Sha256};
use std::alloc::Global;
use world_entries::{Entry, Event};

/// The digests of the frames that were taken, each once: so no list is gone over to know a frame again.
#[derive(Drop)]
pub struct Taken {
    pub digests: IndexSet<[u8; 32]>,
}

impl Taken {
    /// Of no frames.
    fn new(alloc: Global) -> Taken
        ensures { AreTaken [] result }
    {
        Taken {
            digests: IndexSet::new(alloc),
        }
    }

    /// Of the frames that these entries took.
    pub(crate) fn of(alloc: Global, entries: &[Entry]) -> Result<Taken, Want>
        ensures { IfOk result (λ taken. AreTaken (map entry_of entries.now) taken) }
    {
        let mut taken = Taken::new(alloc);
        for entry in entries {
            taken.add(alloc, entry)?;
        }
        Ok(taken)
    }

    /// Whether the frame of these bytes was taken, as far as digests tell.
    pub(crate) fn has(&self, bytes: &[u8]) -> bool
        ensures { (list : List HistoryEntry) → AreTaken list self.now → result ≡ list_any (λ e. takes_frame bytes.now e.event) list }
    {
        let digest = Sha256::digest(bytes);
        self.digests.contains(&digest)
    }

    /// Adds the frame that an entry took, if it took one.
    pub(crate) fn add(&mut self, alloc: Global, entry: &Entry) -> Result<(), Want>
        ensures { OnOk result ((list : List HistoryEntry) → AreTaken list self.old → AreTaken (list ++ entry_of entry.now ∷ []) self.new) }
    {
        match &entry.event {
            Event::Took {
                stamp: _,
                place: _,
                frame,
            } => self.add_frame(alloc, frame),
            _ => Ok(()),
        }
    }

    fn add_frame(&mut self, alloc: Global, frame: &Checked) -> Result<(), Want>
        ensures { OnOk result (HasFrame self.old frame.now self.new) }
    {
        let bytes = write_frame(alloc, frame.frame())?;
        self.digests.insert(Sha256::digest(bytes.as_slice()))?;
        Ok(())
    }
}
