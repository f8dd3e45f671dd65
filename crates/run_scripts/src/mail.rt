//! Frames that were posted, and those on their way.
ghost use Rattle.std.specs.Prelude.{◌≡◌, ◌++◌, ◌∷◌, [], ℕ, List, ◌<◌, true, length, map, slice_get, option_copied, IfOk, OnOk};
ghost use Rattle.std.specs.List.{flat_map, list_all};
ghost use Rattle.run_scripts.specs.Mail.{sent, post_named};
ghost use Rattle.run_scripts.specs.Playing.{slot_at, slots_of, has_slot, new_posts, AreSlots, IsMail};
ghost use Rattle.run_scripts.specs.declared.mail.Post.{Post as Posted};
ghost use Rattle.run_scripts.specs.declared.mail.Delivery.{Delivery as OnItsWay};

use checked_frames::Checked;
use plain_lists::{Copied, Items, Want};
use play_words::Ref;
use std::alloc::Global;

/// Slots for an actor's frames, one for each kind's number: kinds are numbered from 1 to 21.
const SLOTS: u32 = 22;

/// A frame that stands, with the stamp at which it was said and its place there.
pub struct Held {
    pub stamp: u64,
    pub place: u32,
    pub frame: Checked,
}

// Taken apart here once, so that no crate above proves it again.
impl Drop for Held {
    fn drop(self) {
        let Held {
            stamp: _,
            place: _,
            frame: _,
        } = self;
    }
}

impl Copied for Held {
    fn copy(&self) -> Result<Self, Want> {
        Ok(Held {
            stamp: self.stamp,
            place: self.place,
            frame: self.frame.copy()?,
        })
    }
}

/// A frame that an actor posts: its kind's number and its addressees. One that doesn't stand isn't held: nobody can take it.
pub struct Post {
    pub from: u32,
    pub kind: u16,
    pub to: Items<u32>,
    pub held: Option<Held>,
}

// Taken apart here once, so that no crate above proves it again.
impl Drop for Post {
    fn drop(self) {
        let Post {
            from: _,
            kind: _,
            to: _,
            held: _,
        } = self;
    }
}

/// A frame on its way to one addressee.
pub struct Delivery {
    pub to: u32,
    pub from: u32,
    pub held: Held,
}

// Taken apart here once, so that no crate above proves it again.
impl Drop for Delivery {
    fn drop(self) {
        let Delivery {
            to: _,
            from: _,
            held: _,
        } = self;
    }
}

/// What was posted. The slot of an actor and a kind has the frames of that kind that the actor posted, in order.
pub struct Mail {
    pub waiting: Vec<Delivery>,
    pub slots: Vec<Vec<Option<Held>>>,
}

// Taken apart here once, so that no crate above proves it again.
impl Drop for Mail {
    fn drop(self) {
        let Mail {
            waiting: _,
            slots: _,
        } = self;
    }
}

fn slot_at(actor: u32, kind: u16) -> usize
    requires actor { actor < 26 }
    requires kind { kind < 22 }
    ensures { result ≡ slot_at actor kind }
{
    (SLOTS * actor + u32::from(kind)) as usize
}

fn copy_held(held: &Option<Held>) -> Result<Option<Held>, Want>
    ensures { IfOk result (λ made. made ≡ held.now) }
{
    match held {
        Some(held) => Ok(Some(held.copy()?)),
        None => Ok(None),
    }
}

/// Puts a posted frame into its slot.
fn put(slots: &mut Vec<Vec<Option<Held>>>, post: &Post) -> Result<(), Want>
    requires { has_slot (length slots.old.items) post.now ≡ true }
    ensures slots { OnOk result ((actors : ℕ) (posts : List Posted) → AreSlots actors posts (slots_of slots.old.items)
        → AreSlots actors (posts ++ post.now ∷ []) (slots_of slots.new.items)) }
    ensures as_many { length slots.new.items ≡ length slots.old.items }
{
    let held = copy_held(&post.held)?;
    slots[slot_at(post.from, post.kind)].push(held)?;
    Ok(())
}

fn put_if(slots: &mut Vec<Vec<Option<Held>>>, post: &Post, is_new: bool) -> Result<(), Want>
    requires { has_slot (length slots.old.items) post.now ≡ true }
    ensures slots { OnOk result ((actors : ℕ) (posts : List Posted) → AreSlots actors posts (slots_of slots.old.items)
        → AreSlots actors (posts ++ new_posts is_new (post.now ∷ [])) (slots_of slots.new.items)) }
    ensures as_many { length slots.new.items ≡ length slots.old.items }
{
    if is_new { put(slots, post) } else { Ok(()) }
}

fn get_held(held: &[Option<Held>], place: usize) -> Option<&Option<Held>>
    ensures { option_copied result ≡ slice_get held.now place }
{
    held.get(place)
}

/// Sends a frame to these.
fn send_held(waiting: &mut Vec<Delivery>, from: u32, to: &[u32], held: &Held) -> Result<(), Want>
    ensures { OnOk result (waiting.new.items ≡ waiting.old.items ++ map (λ a. record { to = a; from = from; held = held.now }) to.now) }
{
    for addressee in to {
        waiting.push(Delivery {
            to: *addressee,
            from,
            held: held.copy()?,
        })?;
    }
    Ok(())
}

/// Sends a posted frame to its addressees.
fn send(waiting: &mut Vec<Delivery>, post: &Post) -> Result<(), Want>
    ensures { OnOk result (waiting.new.items ≡ waiting.old.items ++ sent post.now) }
{
    match &post.held {
        Some(held) => send_held(waiting, post.from, post.to.as_slice(), held),
        None => Ok(()),
    }
}

/// The slots of so many actors before any frame is posted.
fn empty_slots(alloc: Global, actors: u32) -> Result<Vec<Vec<Option<Held>>>, Want>
    requires { actors < 27 }
    ensures { IfOk result (λ slots. AreSlots actors [] (slots_of slots.items)) }
{
    let mut slots = Vec::new(alloc);
    for _slot in 0..SLOTS * actors {
        slots.push(Vec::new(alloc))?;
    }
    Ok(slots)
}

impl Mail {
    /// The mail of so many actors before any frame is posted.
    pub(crate) fn make(alloc: Global, actors: u32) -> Result<Mail, Want>
        requires { actors < 27 }
        ensures { IfOk result (λ mail. IsMail actors [] [] mail) }
    {
        Ok(Mail {
            waiting: Vec::new(alloc),
            slots: empty_slots(alloc, actors)?,
        })
    }

    /// Posts frames: each new one into its slot, and all on their way.
    pub(crate) fn post(&mut self, posts: &[Post], is_new: bool) -> Result<(), Want>
        requires { list_all (has_slot (length self.old.slots.items)) posts.now ≡ true }
        ensures { OnOk result ((actors : ℕ) (before : List Posted) (waiting : List OnItsWay) → IsMail actors before waiting self.old
            → IsMail actors (before ++ new_posts is_new posts.now) (waiting ++ flat_map sent posts.now) self.new) }
    {
        for post in posts {
            put_if(&mut self.slots, post, is_new)?;
            send(&mut self.waiting, post)?;
        }
        Ok(())
    }

    /// The posted frame that is meant, where there is one. It may be one that nobody can take.
    pub(crate) fn named(&self, which: Ref) -> Option<&Option<Held>>
        requires actor { which.actor < 26 }
        requires kind { which.kind < 22 }
        requires there { slot_at which.actor which.kind < length self.now.slots.items }
        ensures { (actors : ℕ) (posts : List Posted) (waiting : List OnItsWay) → which.actor < actors → IsMail actors posts waiting self.now
            → option_copied result ≡ post_named posts which }
    {
        if which.number == 0 {
            return None;
        }
        get_held(
            &self.slots[slot_at(which.actor, which.kind)],
            (which.number - 1) as usize,
        )
    }
}
