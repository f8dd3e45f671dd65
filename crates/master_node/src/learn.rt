ghost use Rattle.std.specs.Prelude.{◌≡◌, OnOk, true};
ghost use Rattle.std.specs.List.{list_all, flat_map};
ghost use Rattle.message_types.specs.Parts.{parts};
ghost use Rattle.master_knowledge.specs.Whole.{is_whole};
ghost use Rattle.master_knowledge.specs.Knows.{Learns, IsKnowledge};

use master_knowledge::Knowledge;
use message_types::Frame;
use plain_lists::{Items, Want};

/// Learns frames that the master said itself, each with all its parts.
pub(crate) fn recall_all(knowledge: &mut Knowledge, frames: &Items<Frame>) -> Result<(), Want>
    requires known { IsKnowledge knowledge.old }
    requires whole { list_all (is_whole knowledge.old.preorder.group) frames.now ≡ true }
    ensures { OnOk result (Learns knowledge.old knowledge.new (flat_map parts frames.now)) }
{
    for frame in frames.as_slice() {
        knowledge.recall(frame)?;
    }
    Ok(())
}
