//! Where frames were said, found by the digests of their bytes. No clause rests on it: it tells from where a frame comes, and whose
//! entries are worth a closer look.
ghost use Rattle.std.specs.Prelude.{◌≡◌, ◌<◌, IfOk};
ghost use Rattle.sha2.specs.Sha256.{sha256};
ghost use Rattle.message_types.specs.Texts.{frame_text};

use crate::files::Kept;
use checked_frames::Checked;
use indexmap::IndexMap;
use message_forms::write_frame;
use plain_lists::Want;
use sha2::{Digest, Sha256};
use std::alloc::Global;
use world_entries::{Entry, Event};

/// The place of a frame that is told by its bytes, which no body has.
const NO_PLACE: u32 = 4_294_967_295;

/// By a frame's digest the stamp and the place at which it was said first.
type Places = IndexMap<[u8; 32], (u64, u32)>;

/// For which frames the actors' next entries wait, and where frames were said.
pub(crate) struct Heard {
    waits: Vec<Option<[u8; 32]>>,
    places: Places,
}

// Taken apart here once, so that no function proves it again.
impl Drop for Heard {
    fn drop(self) {
        let Heard {
            waits: _,
            places: _,
        } = self;
    }
}

impl Heard {
    /// Before the first entry.
    pub(crate) fn none(alloc: Global, kept: &Kept) -> Result<Heard, Want> {
        let mut waits = Vec::with_capacity(alloc, kept.lists.len())?;
        for list in kept.lists.iter() {
            waits.push(match list.entries().first() {
                Some(entry) => awaited(alloc, kept, entry)?,
                None => None,
            })?;
        }
        let places = Places::new(alloc);
        Ok(Heard { waits, places })
    }

    /// Whether the frame was said for which an actor's next entry waits, or it waits for none.
    pub(crate) fn is_said(&self, actor: u32) -> bool {
        match self.waits.get(actor as usize) {
            Some(Some(digest)) => self.places.contains_key(digest),
            _ => true,
        }
    }

    /// From where an actor's next entry takes its frame, in a history of so many entries: from where it was said, or from no place,
    /// at the entry before.
    pub(crate) fn origin(&self, actor: u32, entries: u64) -> (u64, u32)
        ensures { 0 < entries → result.0 < entries }
    {
        let before = (entries.saturating_sub(1), NO_PLACE);
        let Some(Some(digest)) = self.waits.get(actor as usize) else {
            return before;
        };
        match self.places.get(digest) {
            Some((stamp, place)) if *stamp < entries => (*stamp, *place),
            _ => before,
        }
    }

    /// Notes that frames were said at this stamp.
    pub(crate) fn note_said(
        &mut self,
        alloc: Global,
        stamp: u64,
        frames: &[Checked],
    ) -> Result<(), Want> {
        let mut place = 0u32;
        for frame in frames {
            let digest = digest_of(alloc, frame)?;
            if !self.places.contains_key(&digest) {
                self.places.insert(digest, (stamp, place))?;
            }
            place = place.saturating_add(1);
        }
        Ok(())
    }

    /// Tells anew for what an actor's next entry waits.
    pub(crate) fn wait_again(
        &mut self,
        alloc: Global,
        kept: &Kept,
        actor: u32,
        next: &[usize],
    ) -> Result<(), Want> {
        let (Some(list), Some(joined)) = (kept.lists.get(actor as usize), next.get(actor as usize))
        else {
            return Ok(());
        };
        let again = match list.entries().get(*joined) {
            Some(entry) => awaited(alloc, kept, entry)?,
            None => None,
        };
        if let Some(wait) = self.waits.get_mut(actor as usize) {
            *wait = again;
        }
        Ok(())
    }
}

/// The digest of a frame: SHA-256 of its bytes.
fn digest_of(alloc: Global, frame: &Checked) -> Result<[u8; 32], Want>
    ensures { IfOk result (λ digest. digest ≡ sha256 (frame_text frame.now)) }
{
    let bytes = write_frame(alloc, frame.frame())?;
    let mut hasher = Sha256::new();
    hasher.update(bytes.as_slice());
    Ok(hasher.finalize())
}

/// For which frame an entry waits, by its digest: for the one that it takes, where the frame's signer gave a file.
fn awaited(alloc: Global, kept: &Kept, entry: &Entry) -> Result<Option<[u8; 32]>, Want> {
    match &entry.event {
        Event::Took { frame, .. } if gave(kept, frame.frame().signer) => {
            Ok(Some(digest_of(alloc, frame)?))
        }
        _ => Ok(None),
    }
}

fn gave(kept: &Kept, actor: u32) -> bool {
    kept.gave.get(actor as usize).is_some_and(|gave| *gave)
}
