//! What an actor says, signed.
ghost use Rattle.std.specs.Prelude.{◌≡◌, ◌+◌, ◌≤◌, length, map, IsTrue, IfOk, OnOk};
ghost use Rattle.std.specs.List.{list_all};
ghost use Rattle.message_types.specs.Texts.{body_text};
ghost use Rattle.message_types.specs.Spelling.{body_fits};
ghost use Rattle.hash_signatures.specs.Signatures.{all_leaves};
ghost use Rattle.hash_signatures.specs.State.{key_use};
ghost use Rattle.checked_frames.specs.Entries.{group_size, groups_for, entry_signatures};
ghost use Rattle.world_history.specs.Signed.{frames_with};
ghost use Rattle.world_history.specs.Seats.{AllStand};

use checked_frames::{Checked, sign_entry};
use hash_signatures::{KeyState, SignAnswer};
use message_types::{Body, Frame, Signed};
use plain_lists::{Bytes, Copied, Items, Want};
use std::alloc::Global;

/// The bodies of an entry as frames of the actor, signed with the next leaves of its key.
pub(crate) fn sign_all(
    alloc: Global,
    key: &mut KeyState,
    shared: bool,
    actor: u32,
    bodies: &[Body],
) -> Result<Vec<Frame>, Want>
    requires fit { IsTrue (list_all body_fits bodies.now) }
    requires left { key.old.used + groups_for (group_size shared) (length bodies.now) ≤ all_leaves key.old.key }
    ensures frames { IfOk result (λ frames. frames.items ≡ frames_with actor bodies.now (entry_signatures key.old.key key.old.used (group_size shared) (map body_text bodies.now))) }
    ensures used { OnOk result (key.new ≡ key_use key.old.key (key.old.used + groups_for (group_size shared) (length bodies.now))) }
{
    match sign_entry(alloc, key, shared, bodies) {
        Ok(signatures) => join(alloc, actor, bodies, &signatures),
        Err(SignAnswer::Spent) => unreachable!(),
        Err(SignAnswer::Want) => Err(Want),
    }
}

/// The bodies with their signatures.
fn join(
    alloc: Global,
    actor: u32,
    bodies: &[Body],
    signatures: &[Bytes],
) -> Result<Vec<Frame>, Want>
    ensures { IfOk result (λ frames. frames.items ≡ frames_with actor bodies.now signatures.now) }
{
    let pairs = bodies.len().min(signatures.len());
    let mut frames = Vec::with_capacity(alloc, pairs)?;
    for place in 0..pairs {
        frames.push(Signed {
            signer: actor,
            body: bodies[place].copy()?,
            sig: signatures[place].copy()?,
        })?;
    }
    Ok(frames)
}

/// The frames as frames that stand. None of them is tried again.
pub(crate) fn standing(alloc: Global, frames: &[Frame]) -> Result<Items<Checked>, Want>
    requires { AllStand frames.now }
    ensures { IfOk result (λ checked. checked ≡ frames.now) }
{
    let mut checked = Items::new(alloc);
    for frame in frames {
        checked.push(Checked::from_standing(alloc, frame.copy()?)?)?;
    }
    Ok(checked)
}
