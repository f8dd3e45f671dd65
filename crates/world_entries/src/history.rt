ghost use Rattle.std.specs.Prelude.{◌≡◌, ◌++◌, ◌∷◌, [], length, map, OnOk, OnErr};
ghost use Rattle.world_entries.specs.Entries.{entry_of};

use crate::entry::Entry;
use plain_lists::Want;
use std::alloc::Global;
use std::marker::Model;

/// The entries of a run, in the order of their stamps. Contracts see it as the list of these entries.
#[derive(Drop)]
pub struct History {
    entries: Vec<Entry>,
}

impl Model for History {
    ghost use Rattle.std.specs.Prelude.{List, map};
    ghost use Rattle.history_rules.specs.Events.{Entry as HistoryEntry};
    ghost use Rattle.world_entries.specs.Entries.{entry_of};

    ghost Value = { List HistoryEntry };

    ghost view = { λ history. map entry_of history.entries.items };
}

impl History {
    /// The history of no entries.
    pub fn new(alloc: Global) -> History
        ensures { result ≡ [] }
    {
        History {
            entries: Vec::new(alloc),
        }
    }

    /// Adds an entry at the end. Without memory for it the history stays as it was.
    pub fn push(&mut self, entry: Entry) -> Result<(), Want>
        ensures ok { OnOk result (self.new ≡ self.old ++ entry_of entry ∷ []) }
        ensures err { OnErr result (self.new ≡ self.old) }
    {
        self.entries.push(entry)?;
        Ok(())
    }

    pub fn entries(&self) -> &[Entry]
        ensures { map entry_of result.now ≡ self.now }
    {
        self.entries.as_slice()
    }

    pub fn len(&self) -> usize
        ensures { result ≡ length self.now }
    {
        self.entries.len()
    }
}
