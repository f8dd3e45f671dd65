ghost use Rattle.std.specs.Prelude.{◌≡◌, ◌+◌, ◌<◌, ◌^◌, None, length, map, IsTrue, IsOk, IfOk, IfErr};
ghost use Rattle.std.specs.List.{list_all};
ghost use Rattle.plain_lists.specs.Lists.{Each};
ghost use Rattle.message_types.specs.Spelling.{body_fits, has_spelling};
ghost use Rattle.message_types.specs.Parts.{parts};
ghost use Rattle.checked_frames.specs.Standing.{Ring, part_fault, fault_from, first_fault, stands, StandsSomewhere, IsFault, said_by, IsSaidIn};

use crate::key_ring::KeyRing;
use crate::refusal::CheckRefusal;
use crate::ring_memory::RingMemory;
use message_forms::text_of;
use message_types::{Body, Frame, Signed, parts_of, put_inside};
use plain_lists::{Copied, Want};
use std::alloc::Global;
use std::marker::Model;
use std::sync::Arc;

/// A frame that stands, which copies share. It keeps that the frame stands in some ring, and so that it has a spelling and
/// that in each of its lists the signers rise. In which ring it stands, the calls say that make it, and by that whoever holds it
/// knows what its parts stand in (`parts`, `laws::parts_stand`).
pub struct Checked {
    shared: Arc<Frame, Global>,
}

// Taken apart here once, so that no crate above proves it again.
impl Drop for Checked {
    fn drop(self) {
        let Checked { shared: _ } = self;
    }
}

impl Model for Checked {
    ghost use Rattle.std.specs.Arc.{arc_value};
    ghost use Rattle.message_types.specs.declared.signed.Signed.{Signed as SignedWord};
    ghost use Rattle.message_types.specs.declared.body.Body.{Body as AnyBody};
    ghost use Rattle.checked_frames.specs.Standing.{StandsSomewhere};

    ghost Value = { SignedWord AnyBody };

    ghost view = { λ checked. arc_value checked.shared };

    ghost invariant = { λ checked. StandsSomewhere (arc_value checked.shared) };
}

impl Checked {
    /// A frame that is known to stand, as one that the signer's own key signed just now: no part of it is tried again.
    pub fn from_standing(alloc: Global, frame: Frame) -> Result<Checked, Want>
        requires { StandsSomewhere frame }
        ensures { IfOk result (λ checked. checked ≡ frame) }
    {
        Ok(Checked {
            shared: Arc::new(alloc, frame)?,
        })
    }

    pub fn frame(&self) -> &Frame
        ensures frame { result.now ≡ self.now }
        ensures standing { StandsSomewhere self.now }
        ensures spelled { IsTrue (has_spelling self.now) }
    {
        &self.shared
    }
}

impl Copied for Checked {
    fn copy(&self) -> Result<Self, Want> {
        Ok(Checked {
            shared: Arc::try_clone(&self.shared)?,
        })
    }
}

// The three tests of the part of this number.
#[tactic(auto, unfolding(crate::specs::Standing::part_fault))]
fn check_part(
    alloc: Global,
    ring: &KeyRing,
    memory: &mut RingMemory,
    part: u32,
    frame: &Frame,
) -> Result<(), CheckRefusal>
    requires { IsTrue (body_fits frame.now.body) }
    ensures none { IsOk result → part_fault ring.now part frame.now ≡ None }
    ensures fault { IfErr result (λ refusal. IsFault refusal (part_fault ring.now part frame.now)) }
{
    let signer = frame.signer;
    if !ring.has(signer) {
        return Err(CheckRefusal::SignerUnknown { signer });
    }
    let text = text_of(alloc, &frame.body)?;
    if !memory.signs(signer, ring.public(signer), &text, frame.sig.as_slice()) {
        return Err(CheckRefusal::Unsigned { part });
    }
    if !ring.is_in_place(frame) {
        return Err(CheckRefusal::Misplaced { part });
    }
    Ok(())
}

// The tests of these parts in order, the first of which is part 1.
fn check_inner(
    alloc: Global,
    ring: &KeyRing,
    memory: &mut RingMemory,
    frames: &[Frame],
) -> Result<(), CheckRefusal>
    requires spelled { IsTrue (list_all (λ f. body_fits f.body) frames.now) }
    requires few { length frames.now < 2 ^ 16 }
    ensures none { IsOk result → fault_from ring.now 1 frames.now ≡ None }
    ensures fault { IfErr result (λ refusal. IsFault refusal (fault_from ring.now 1 frames.now)) }
{
    let mut part = 1;
    for frame in frames {
        check_part(alloc, ring, memory, part, frame)?;
        part += 1;
    }
    Ok(())
}

/// Takes a frame that stands, or refuses it at the first test that its first faulty part fails. The frame itself is
/// tried before those inside it are copied out; their signatures are shared.
pub fn check(alloc: Global, ring: &KeyRing, frame: Frame) -> Result<Checked, CheckRefusal>
    requires { IsTrue (has_spelling frame) }
    ensures frame { IfOk result (λ checked. checked ≡ frame) }
    ensures stands { IsOk result → IsTrue (stands ring.now frame) }
    // Each refusal is the first fault, unless memory runs out.
    ensures fault { IfErr result (λ refusal. IsFault refusal (first_fault ring.now frame)) }
{
    let mut memory = RingMemory::none(alloc);
    check_with(alloc, ring, &mut memory, frame)
}

/// As `check`, whatever is known, and remembers the signed keys that verified.
pub fn check_with(
    alloc: Global,
    ring: &KeyRing,
    memory: &mut RingMemory,
    frame: Frame,
) -> Result<Checked, CheckRefusal>
    requires { IsTrue (has_spelling frame) }
    ensures frame { IfOk result (λ checked. checked ≡ frame) }
    ensures stands { IsOk result → IsTrue (stands ring.now frame) }
    // Each refusal is the first fault, unless memory runs out.
    ensures fault { IfErr result (λ refusal. IsFault refusal (first_fault ring.now frame)) }
{
    check_part(alloc, ring, memory, 0, &frame)?;
    let mut inner = Vec::new(alloc);
    put_inside(&mut inner, &frame.body)?;
    check_inner(alloc, ring, memory, &inner)?;
    Ok(Checked::from_standing(alloc, frame)?)
}

fn pairs(alloc: Global, frames: Vec<Frame>) -> Result<Vec<(u32, Body)>, Want>
    ensures { IfOk result (λ list. list.items ≡ map said_by frames.items) }
{
    let mut list = Vec::with_capacity(alloc, frames.len())?;
    for frame in frames {
        let Signed {
            signer,
            body,
            sig: _,
        } = frame;
        list.push((signer, body))?;
    }
    Ok(list)
}

/// The parts of a frame that stands, in their order: who said what. Each is signed and in its place in whichever ring the frame
/// stands in: whoever holds the frame knows it of the ring that `check` was given.
pub fn parts(alloc: Global, checked: &Checked) -> Result<Vec<(u32, Body)>, Want>
    ensures said { IfOk result (λ list. list.items ≡ map said_by (parts checked.now)) }
    ensures standing { IfOk result (λ list. (ring : Ring) → IsTrue (stands ring checked.now) → Each (IsSaidIn ring) list.items) }
{
    let frames = parts_of(alloc, checked.frame())?;
    pairs(alloc, frames)
}
