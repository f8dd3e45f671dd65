//! The frames that entries took, taken by blame.
ghost use Rattle.std.specs.Prelude.{◌≡◌, ◌++◌, ℕ, List, map, IfOk, OnOk};
ghost use Rattle.message_types.specs.declared.signed.Signed.{Signed as SignedWord};
ghost use Rattle.message_types.specs.declared.body.Body.{Body as Word};
ghost use Rattle.history_rules.specs.Audit.{parts_taken};
ghost use Rattle.world_entries.specs.Entries.{entry_of};
ghost use Rattle.blame_check.specs.Slots.{HasTaken};
ghost use Rattle.blame_check.specs.Laws.{words_taken};

use blame_check::Blame;
use plain_lists::Want;
use quorum_sets::Sizes;
use std::alloc::Global;
use world_entries::{Entry, Event};

/// Blame for what the entries took, in their order.
pub(crate) fn blame_of(alloc: Global, sizes: Sizes, entries: &[Entry]) -> Result<Blame, Want>
    ensures { IfOk result (λ blame. HasTaken sizes.n (words_taken (map entry_of entries.now)) blame) }
{
    let mut blame = Blame::make(alloc, sizes);
    for entry in entries {
        take_entry(alloc, &mut blame, entry)?;
    }
    Ok(blame)
}

/// Takes the frame that the entry took, if it took one. A cry that nobody took is no evidence.
fn take_entry(alloc: Global, blame: &mut Blame, entry: &Entry) -> Result<(), Want>
    ensures { OnOk result ((n : ℕ) (words : List (SignedWord Word)) → HasTaken n words blame.old
        → HasTaken n (words ++ parts_taken (entry_of entry.now)) blame.new) }
{
    match &entry.event {
        Event::Took { frame, .. } => blame.take(alloc, frame),
        _ => Ok(()),
    }
}
