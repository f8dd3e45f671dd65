//! What an intruded master is made to say.
ghost use Rattle.std.specs.Prelude.{◌≡◌, ◌<◌, IsTrue, IsErr, true, OnOk, OnErr, IfOk, IfSome};
ghost use Rattle.std.specs.Option.{option_map};
ghost use Rattle.message_types.specs.Texts.{frame_text};
ghost use Rattle.message_types.specs.Spelling.{body_fits};
ghost use Rattle.play_words.specs.Accepted.{is_accepted};
ghost use Rattle.world_rules.specs.Scenarios.{setup_of, masters_in};
ghost use Rattle.world_history.specs.Seats.{IsSeated, world_in, state_of};
ghost use Rattle.world_history.specs.State.{setup_in, is_intruded_master, leaves_left, word_body, word_frame, spoken, with_word, after_word};

use crate::bench::Bench;
use crate::frames::sign_all;
use crate::role::Role;
use crate::seat::Seat;
use message_forms::write_frame;
use message_types::Body;
use plain_lists::Want;
use play_words::Word;

impl Seat {
    /// The bytes of a word: raw ones as they stand, else the frame of the body that the word is. After want of memory a leaf
    /// may be lost with which nothing was signed.
    pub(crate) fn speak(&mut self, word: &Word) -> Result<Option<Vec<u8>>, Want>
        requires seated { IsSeated self.old }
        requires master { self.old.actor < masters_in (world_in self.old) }
        requires intruded { (setup_of (world_in self.old)).intruded self.old.actor ≡ true }
        requires accepted { IsTrue (is_accepted word.now) }
        ensures spoken { IfOk result (λ bytes. option_map (λ v. v.items) bytes ≡ spoken (state_of self.old) word.now) }
        ensures state { OnOk result (state_of self.new ≡ after_word (state_of self.old) word.now) }
        ensures seated { OnOk result (IsSeated self.new) }
        ensures refused { OnErr result (state_of self.new ≡ state_of self.old) }
    {
        if let Word::Raw { bytes } = word {
            return Ok(Some(Vec::from_slice(self.alloc, bytes.as_slice())?));
        }
        let body = self.word_body(word)?;
        match body {
            Some(body) => Ok(Some(self.sign_word(body)?)),
            None => Ok(None),
        }
    }

    /// The body that a word is. None for a raw word, where the master knows too little for the body, and where it has no leaf
    /// left to sign it with.
    fn word_body(&self, word: &Word) -> Result<Option<Body>, Want>
        requires seated { IsSeated self.now }
        requires master { self.now.actor < masters_in (world_in self.now) }
        requires intruded { (setup_of (world_in self.now)).intruded self.now.actor ≡ true }
        requires accepted { IsTrue (is_accepted word.now) }
        ensures body { IfOk result (λ body. body ≡ word_body (state_of self.now) word.now) }
        ensures fits { IfOk result (λ body. IfSome body (λ b. IsTrue (body_fits b))) }
    {
        let Role::Intruded(known) = &self.role else {
            unreachable!()
        };
        if self.key.left() == 0 {
            return Ok(None);
        }
        known.body(&self.scenario.sizes, word)
    }

    /// The bytes of a body's frame, signed with the next leaf of the master's key.
    fn sign_word(&mut self, body: Body) -> Result<Vec<u8>, Want>
        requires seated { IsSeated self.old }
        requires master { self.old.actor < masters_in (world_in self.old) }
        requires intruded { (setup_of (world_in self.old)).intruded self.old.actor ≡ true }
        requires left { 0 < leaves_left (state_of self.old) }
        requires fits { IsTrue (body_fits body) }
        ensures text { IfOk result (λ text. text.items ≡ frame_text (word_frame (state_of self.old) body)) }
        ensures state { OnOk result (state_of self.new ≡ with_word (state_of self.old)) }
        ensures seated { OnOk result (IsSeated self.new) }
        ensures refused { OnErr result (state_of self.new ≡ state_of self.old) }
    {
        let shared = self.scenario.frames == 2;
        let frames = sign_all(self.alloc, &mut self.key, shared, self.actor, &[body])?;
        let text = write_frame(self.alloc, &frames[0])?;
        self.signed += 1;
        Ok(text)
    }
}

impl Bench {
    /// Whether the actor is an intruded master, which can be made to speak.
    pub fn is_intruded(&self) -> bool
        ensures { result ≡ is_intruded_master self.now }
    {
        let scenario = &self.seat.scenario;
        self.seat.actor < scenario.sizes.n && scenario.intruded.has(self.seat.actor)
    }

    /// The bytes of a word that an intruded master is made to say: raw ones as they stand, else the frame of the body that the
    /// word is, signed with the next leaf of the master's key. None where the master knows too little for that body or has no
    /// leaf left. After want of memory the bench is spent: it answers `Want` from then on.
    pub fn speak(&mut self, word: &Word) -> Result<Option<Vec<u8>>, Want>
        requires master { self.old.actor < masters_in self.old.world }
        requires intruded { (setup_in self.old).intruded self.old.actor ≡ true }
        requires accepted { IsTrue (is_accepted word.now) }
        ensures spoken { IfOk result (λ bytes. option_map (λ v. v.items) bytes ≡ spoken self.old word.now) }
        ensures state { OnOk result (self.new ≡ after_word self.old word.now) }
        ensures refused { OnErr result (self.new ≡ record self.old { is_spent = true }) }
        ensures spent { self.old.is_spent ≡ true → IsErr result }
    {
        if self.is_spent {
            return Err(Want);
        }
        self.is_spent = true;
        let bytes = self.seat.speak(word)?;
        self.is_spent = false;
        Ok(bytes)
    }
}
