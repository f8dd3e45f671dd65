//! Frames out of bytes, and those of them that stand. What is refused is none, unless for want of memory.
ghost use Rattle.std.specs.Prelude.{◌≡◌, None, Some, IfOk, IfSome, IsTrue, if◌then◌else◌};
ghost use Rattle.message_types.specs.Spelling.{has_spelling};
ghost use Rattle.checked_frames.specs.Standing.{stands};
ghost use Rattle.history_rules.specs.Events.{Cry};
ghost use Rattle.world_rules.specs.Frames.{cried};
ghost use Rattle.world_history.specs.Roles.{optional};
ghost use Rattle.world_history.specs.Reading.{is_want_of_form, is_want_of_check};

use checked_frames::{CheckRefusal, Checked, KeyRing, RingMemory, check_with};
use message_forms::{FormRefusal, read_frame};
use message_types::Frame;
use plain_lists::Want;
use std::alloc::Global;

/// The frame that a cry's bytes spell.
pub fn cried(alloc: Global, bytes: &[u8]) -> Result<Option<Frame>, Want>
    ensures found { IfOk result (λ found. optional found ≡ cried (Cry bytes.now)) }
    ensures spelled { IfOk result (λ found. IfSome found (λ frame. IsTrue (has_spelling frame))) }
{
    match read_frame(alloc, bytes) {
        Ok(frame) => Ok(Some(frame)),
        Err(refusal) if is_want_of_form(refusal) => Err(Want),
        Err(_) => Ok(None),
    }
}

fn is_want_of_form(refusal: FormRefusal) -> bool
    ensures { result ≡ is_want_of_form refusal }
{
    matches!(refusal, FormRefusal::Want)
}

/// The frame, if it stands with these keys. The memory is of frames that were checked with this ring.
pub fn if_standing(
    alloc: Global,
    ring: &KeyRing,
    memory: &mut RingMemory,
    frame: Frame,
) -> Result<Option<Checked>, Want>
    requires { IsTrue (has_spelling frame) }
    ensures { IfOk result (λ found. found ≡ (if stands ring.now frame then Some frame else None)) }
{
    match check_with(alloc, ring, memory, frame) {
        Ok(frame) => Ok(Some(frame)),
        Err(refusal) if is_want_of_check(refusal) => Err(Want),
        Err(_) => Ok(None),
    }
}

fn is_want_of_check(refusal: CheckRefusal) -> bool
    ensures { result ≡ is_want_of_check refusal }
{
    matches!(refusal, CheckRefusal::Want)
}
