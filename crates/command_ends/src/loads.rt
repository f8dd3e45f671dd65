ghost use Rattle.std.specs.Prelude.{◌≡◌, ℕ, List};
ghost use Rattle.command_ends.specs.Calls.{FaultsOfFiles};
ghost use Rattle.command_ends.specs.Loaded.{LoadCause};

use crate::limits::{MOST_BYTES, MOST_KEPT_BYTES};
use crate::refusal::Refusal;
use outside::{Files, LoadAnswer};
use plain_lists::Text;
use std::alloc::Global;

/// The content of a file, which may have `MOST_BYTES` bytes.
pub fn load<F: Files>(alloc: Global, name: &str, files: &mut F) -> Result<Vec<u8>, Refusal>
    ensures kept { (other : List ℕ) → F.held files.new other ≡ F.held files.old other }
    ensures file_faults { FaultsOfFiles result (F.faults files.old) (F.faults files.new) }
    ensures cause { LoadCause MOST_BYTES (F.held files.old name.now) (F.faults files.old name.now) (F.faults files.new name.now) name.now result }
{
    load_within(alloc, name, MOST_BYTES, files)
}

/// The content of a file that a station kept, which may have `MOST_KEPT_BYTES` bytes.
pub fn load_kept<F: Files>(alloc: Global, name: &str, files: &mut F) -> Result<Vec<u8>, Refusal>
    ensures kept { (other : List ℕ) → F.held files.new other ≡ F.held files.old other }
    ensures file_faults { FaultsOfFiles result (F.faults files.old) (F.faults files.new) }
    ensures cause { LoadCause MOST_KEPT_BYTES (F.held files.old name.now) (F.faults files.old name.now) (F.faults files.new name.now) name.now result }
{
    load_within(alloc, name, MOST_KEPT_BYTES, files)
}

fn load_within<F: Files>(
    alloc: Global,
    name: &str,
    most: u64,
    files: &mut F,
) -> Result<Vec<u8>, Refusal>
    ensures kept { (other : List ℕ) → F.held files.new other ≡ F.held files.old other }
    ensures file_faults { FaultsOfFiles result (F.faults files.old) (F.faults files.new) }
    ensures cause { LoadCause most (F.held files.old name.now) (F.faults files.old name.now) (F.faults files.new name.now) name.now result }
{
    // The name is copied first, so that no fault is told as want of memory.
    let Ok(named) = Text::from_str(alloc, name) else {
        return Err(Refusal::Memory);
    };
    match files.load(name, most) {
        Ok(content) => Ok(content),
        Err(LoadAnswer::Failed) => Err(Refusal::Fault { name: named }),
        Err(LoadAnswer::TooLong) => Err(Refusal::TooLong { name: named }),
        Err(LoadAnswer::Want) => Err(Refusal::Memory),
    }
}
