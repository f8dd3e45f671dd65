ghost use Rattle.std.specs.Prelude.{◌≡◌, ◌≢◌, ◌++◌, [], OnOk, OnErr, IfOk, IfSome, IsTrue, ℕ};
ghost use Rattle.std.specs.List.{flat_map};
ghost use Rattle.message_types.specs.Parts.{parts};
ghost use Rattle.message_types.specs.Spelling.{has_spelling, body_fits};
ghost use Rattle.message_forms.specs.declared.refusal.FormRefusal.TheVariants as fault;
ghost use Rattle.protocol_rules.specs.Group.{group_of};
ghost use Rattle.history_rules.specs.Events.{Cry};
ghost use Rattle.world_rules.specs.Frames.{cried};
ghost use Rattle.play_words.specs.Accepted.{is_accepted};
ghost use Rattle.intruder_words.specs.Speaking.{body_of};

use crate::bodies::body_of;
use message_forms::{FormRefusal, read_frame};
use message_types::{Body, Frame, parts_of};
use plain_lists::Want;
use play_words::Word;
use quorum_sets::Sizes;
use std::alloc::Global;
use std::marker::Model;

/// What an intruded master knows. Contracts see the parts of all frames that it took or cried, as they became known.
pub struct Overheard {
    alloc: Global,
    known: Vec<Frame>,
}

// Taken apart here once, so that no crate above proves it again.
impl Drop for Overheard {
    fn drop(self) {
        let Overheard { alloc: _, known: _ } = self;
    }
}

impl Model for Overheard {
    ghost use Rattle.std.specs.Prelude.{List};
    ghost use Rattle.message_types.specs.declared.signed.Signed.{Signed as SignedWord};
    ghost use Rattle.message_types.specs.declared.body.Body.{Body as AnyBody};

    ghost Value = { List (SignedWord AnyBody) };

    ghost view = { λ a. a.known.items };

    ghost use Rattle.intruder_words.specs.Overheard.{IsHeld};

    ghost invariant = { IsHeld };
}

impl Overheard {
    /// A master that knows no frame.
    pub fn new(alloc: Global) -> Overheard
        ensures { result ≡ [] }
    {
        Overheard {
            alloc,
            known: Vec::new(alloc),
        }
    }

    /// Learns a frame that the master took, with the frames inside it.
    pub fn hear(&mut self, frame: &Frame) -> Result<(), Want>
        requires { IsTrue (has_spelling frame.now) }
        ensures heard { OnOk result (self.new ≡ self.old ++ parts frame.now) }
        ensures refused { OnErr result (self.new ≡ self.old) }
    {
        let mut parts = parts_of(self.alloc, frame)?;
        self.known.append(&mut parts)?;
        Ok(())
    }

    /// Learns the frame that the bytes of the master's own cry spell, with the frames inside it, whether or not they are
    /// in their places and signed. Bytes that spell none teach nothing.
    pub fn cry(&mut self, bytes: &[u8]) -> Result<(), Want>
        ensures heard { OnOk result (self.new ≡ self.old ++ flat_map parts (cried (Cry bytes.now))) }
        ensures refused { OnErr result (self.new ≡ self.old) }
    {
        match read_frame(self.alloc, bytes) {
            Ok(frame) => self.hear(&frame),
            Err(refusal) => unread(refusal),
        }
    }

    /// The body that a word is, for a group of these sizes with however many clients. None exactly where a frame or
    /// certificate that the word needs isn't known, or where the word is raw.
    pub fn body(&self, sizes: &Sizes, word: &Word) -> Result<Option<Body>, Want>
        ensures body { IfOk result (λ body. (clients : ℕ) → body ≡ body_of (group_of sizes.now clients) self.now word.now) }
        // Such a body can be signed and written.
        ensures fits { IfOk result (λ body. IsTrue (is_accepted word.now) → IfSome body (λ b. IsTrue (body_fits b))) }
    {
        body_of(self.alloc, sizes, &self.known, word)
    }
}

/// Only want of memory is answered: a fault in the bytes is none of the master's.
fn unread(refusal: FormRefusal) -> Result<(), Want>
    ensures { OnOk result (refusal ≢ fault.Want) }
{
    match refusal {
        FormRefusal::Want => Err(Want),
        _ => Ok(()),
    }
}
