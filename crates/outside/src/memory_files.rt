ghost use Rattle.std.specs.Prelude.{◌≡◌, ◌≢◌, ◌≤◌, ℕ, List, [], map, Option, None, Some, IfSome, IfOk, IsErrOf, vec_len, option_copied, unwrap_or, if◌then◌else◌};
ghost use Rattle.outside.specs.Faults.{HasRisen};
ghost use Rattle.outside.specs.Shelf.{LoadGives, LoadCounts, listed, content_of, failures_of, ShelfLoads};

use crate::files::{Files, LoadAnswer};
use std::alloc::Global;
use std::marker::Model;

/// Files in memory, for tests. The listed calls of `load` fail, and so does a load of a name that
/// isn't listed.
#[derive(Drop)]
pub struct MemoryFiles {
    alloc: Global,
    files: Vec<(String, Vec<u8>)>,
    failing: Vec<u64>,
    calls: u64,
    failed: Vec<String>,
}

impl Model for MemoryFiles {
    ghost use Rattle.std.specs.Prelude.{map, string_bytes};
    ghost use Rattle.outside.specs.Shelf.{Shelf, listed};

    ghost Value = { Shelf };

    ghost view = { λ memory. record { files = map listed memory.files.items; failing = memory.failing.items; calls = memory.calls; failed = map string_bytes memory.failed.items } };
}

impl MemoryFiles {
    /// Files with these names and contents, of which the calls with these numbers, from 1, fail. Of
    /// two files with one name the first counts.
    pub fn make(alloc: Global, files: Vec<(String, Vec<u8>)>, failing: Vec<u64>) -> Self
        ensures { result ≡ record { files = map listed files.items; failing = failing.items; calls = 0; failed = [] } }
    {
        MemoryFiles {
            alloc,
            files,
            failing,
            calls: 0,
            failed: Vec::new(alloc),
        }
    }
}

impl Files for MemoryFiles {
    ghost faults = { failures_of };

    ghost held = { λ memory name. content_of memory.files name };

    fn load(&mut self, name: &str, room: u64) -> Result<Vec<u8>, LoadAnswer>
        ensures never_falls { (other : List ℕ) → failures_of self.old other ≤ failures_of self.new other }
        ensures failed { IsErrOf result LoadAnswer.Failed → HasRisen (failures_of self.old name.now) (failures_of self.new name.now) }
        ensures counted { LoadCounts result (failures_of self.old) (failures_of self.new) }
        ensures content { IfSome (content_of self.old.files name.now) (λ content. LoadGives content room result) }
        ensures within_room { IfOk result (λ loaded. vec_len loaded ≤ room) }
        ensures kept { (other : List ℕ) → content_of self.new.files other ≡ content_of self.old.files other }
        ensures exact { ShelfLoads self.old name.now result self.new }
    {
        self.failed.reserve(1).map_err(|_| LoadAnswer::Want)?;
        let call = self.calls.saturating_add(1);
        let found = find_unless(self.failing.contains(&call), &self.files, name);
        match found {
            Some(content) => match load_content(self.alloc, content, room) {
                Ok(loaded) => {
                    self.calls = call;
                    Ok(loaded)
                }
                Err(LoadAnswer::TooLong) => {
                    self.calls = call;
                    Err(LoadAnswer::TooLong)
                }
                Err(_) => Err(LoadAnswer::Want),
            },
            None => {
                let refused = String::from_str(self.alloc, name).map_err(|_| LoadAnswer::Want)?;
                self.failed.push(refused).map_err(|_| LoadAnswer::Want)?;
                self.calls = call;
                Err(LoadAnswer::Failed)
            }
        }
    }
}

/// Files in memory that never fail. A name that isn't listed holds the empty file.
#[derive(Drop)]
pub struct SteadyFiles {
    alloc: Global,
    files: Vec<(String, Vec<u8>)>,
}

impl Model for SteadyFiles {
    ghost use Rattle.std.specs.Prelude.{map, List, ℕ};
    ghost use Rattle.outside.specs.Shelf.{listed};

    ghost Value = { List (List ℕ × List ℕ) };

    ghost view = { λ steady. map listed steady.files.items };
}

impl SteadyFiles {
    /// Files with these names and contents. Of two files with one name the first counts.
    pub fn make(alloc: Global, files: Vec<(String, Vec<u8>)>) -> Self
        ensures { result ≡ map listed files.items }
    {
        SteadyFiles { alloc, files }
    }
}

impl Files for SteadyFiles {
    ghost faults = { λ _ _. 0 };

    ghost held = { λ steady name. Some (unwrap_or (content_of steady name) []) };

    fn load(&mut self, name: &str, room: u64) -> Result<Vec<u8>, LoadAnswer> {
        match find(&self.files, name) {
            Some(content) => load_content(self.alloc, content, room),
            None => Ok(Vec::new(self.alloc)),
        }
    }
}

// Nothing where the call is to fail.
fn find_unless<'a>(is_failing: bool, files: &'a [(String, Vec<u8>)], name: &str) -> Option<&'a [u8]>
    ensures { option_copied result ≡ (if is_failing then None else content_of (map listed files.now) name.now) }
{
    if is_failing {
        return None;
    }
    find(files, name)
}

// The content of the first file of that name.
fn find<'a>(files: &'a [(String, Vec<u8>)], name: &str) -> Option<&'a [u8]>
    ensures { option_copied result ≡ content_of (map listed files.now) name.now }
{
    for (listed, content) in files {
        if listed.as_str() == name {
            return Some(content.as_slice());
        }
    }
    None
}

// A copy of the content where it has room.
fn load_content(alloc: Global, content: &[u8], room: u64) -> Result<Vec<u8>, LoadAnswer>
    ensures gives { LoadGives content.now room result }
    ensures never_failed { result ≢ Err LoadAnswer.Failed }
{
    if content.len() as u64 > room {
        return Err(LoadAnswer::TooLong);
    }
    Vec::from_slice(alloc, content).map_err(|_| LoadAnswer::Want)
}
