ghost use Rattle.std.specs.Prelude.{◌≡◌, ◌<◌, ◌++◌, ◌∷◌, ℕ, List, [], length, nat_eq, IsTrue, OnOk, OnErr};
ghost use Rattle.std.specs.List.{list_any};
ghost use Rattle.message_types.specs.declared.signed.Signed.{Signed as SignedWord};
ghost use Rattle.message_types.specs.declared.body.Body.{Body as Word};
ghost use Rattle.message_types.specs.Parts.{parts as parts_of_frame};
ghost use Rattle.history_rules.specs.Sameness.{is_same_body};
ghost use Rattle.blame_check.specs.Contradictions.{named};
ghost use Rattle.checked_frames.specs.Standing.{Ring, stands};
ghost use Rattle.blame_check.specs.Slots.{HasTaken, HasBegun, IsOfRing};

use crate::pairs::{Named, is_named, name};
use crate::slots::{Firsts, slot_of};
use checked_frames::Checked;
use indexmap::IndexMap;
use message_types::{Body, Frame, parts_of};
use plain_lists::{Same, Want};
use quorum_sets::Sizes;
use std::alloc::Global;

/// Takes frames, and names the masters that contradicted themselves in these or in frames inside them. Each part is looked
/// at once, and none that came before is looked through.
pub struct Blame {
    masters: u32,
    firsts: Firsts,
    pairs: Vec<Named>,
}

// Taken apart here once, so that no crate above proves it again.
impl Drop for Blame {
    fn drop(self) {
        let Blame {
            masters: _,
            firsts: _,
            pairs: _,
        } = self;
    }
}

impl Blame {
    /// Before any frame nobody is named. (No word was taken, so all stand in whichever ring.)
    pub fn make(alloc: Global, sizes: Sizes) -> Blame
        ensures { HasTaken sizes.n [] result }
    {
        Blame {
            masters: sizes.n,
            firsts: IndexMap::new(alloc),
            pairs: Vec::new(alloc),
        }
    }

    /// Takes the next frame, with all frames inside it. After want of memory a beginning of these was taken, in their order, and
    /// the blame goes by that. Where the frame stands in a ring in which all that was taken before stands, all does still.
    pub fn take(&mut self, alloc: Global, checked: &Checked) -> Result<(), Want>
        ensures taken { OnOk result ((n : ℕ) (words : List (SignedWord Word)) → HasTaken n words self.old
            → HasTaken n (words ++ parts_of_frame checked.now) self.new) }
        ensures begun { OnErr result ((n : ℕ) (words : List (SignedWord Word)) → HasTaken n words self.old
            → HasBegun n words (parts_of_frame checked.now) self.new) }
        ensures standing { (ring : Ring) (n : ℕ) → IsOfRing ring n self.old → IsTrue (stands ring checked.now) → IsOfRing ring n self.new }
    {
        let parts = parts_of(alloc, checked.frame())?;
        self.take_parts(parts)
    }

    fn take_parts(&mut self, parts: Vec<Frame>) -> Result<(), Want>
        ensures taken { OnOk result ((n : ℕ) (words : List (SignedWord Word)) → HasTaken n words self.old
            → HasTaken n (words ++ parts.items) self.new) }
        ensures begun { OnErr result ((n : ℕ) (words : List (SignedWord Word)) → HasTaken n words self.old
            → HasBegun n words parts.items self.new) }
    {
        for part in parts {
            self.take_part(part)?;
        }
        Ok(())
    }

    fn take_part(&mut self, part: Frame) -> Result<(), Want>
        ensures taken { OnOk result ((n : ℕ) (words : List (SignedWord Word)) → HasTaken n words self.old
            → HasTaken n (words ++ part ∷ []) self.new) }
        ensures stays { OnErr result ((n : ℕ) (words : List (SignedWord Word)) → HasTaken n words self.old
            → HasTaken n words self.new) }
    {
        let Some((kind, first, second)) = slot_of(&part.body) else {
            return Ok(());
        };
        let key = (part.signer, kind, first, second);
        match self.firsts.get(&key) {
            Some(earlier) => {
                if !is_same_word(&earlier.body, &part.body) {
                    name(&mut self.pairs, self.masters, earlier, part)?;
                }
            }
            None => {
                self.firsts.insert(key, part)?;
            }
        }
        Ok(())
    }

    /// By rising master those that contradicted themselves, each with the pair whose second word came first, and of such
    /// pairs the one with the earliest first word. In which rings these stand, `laws::named_stand` tells.
    pub fn named(&self) -> &[Named]
        ensures { (n : ℕ) (words : List (SignedWord Word)) → HasTaken n words self.now → result.now ≡ named n words }
    {
        self.pairs.as_slice()
    }

    /// Whether the master is named.
    pub fn has(&self, master: u32) -> bool
        ensures { (n : ℕ) (words : List (SignedWord Word)) → HasTaken n words self.now
            → result ≡ list_any (λ x. nat_eq x.master master) (named n words) }
    {
        is_named(self.pairs.as_slice(), master)
    }
}

fn is_same_word(a: &Body, b: &Body) -> bool
    ensures { result ≡ is_same_body a.now b.now }
{
    a.is_same(b)
}
