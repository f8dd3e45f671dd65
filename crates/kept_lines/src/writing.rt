//! The line that is kept of an entry.
ghost use Rattle.std.specs.Prelude.{◌≡◌, ◌≤◌, ◌<◌, ◌++◌, ◌∷◌, [], ℕ, List, length, codes, IfOk, OnOk};
ghost use Rattle.sha2.specs.Hashers.{Holds256};
ghost use Rattle.message_types.specs.Texts.{frame_text};
ghost use Rattle.scenario_file.specs.Actors.{actors_of};
ghost use Rattle.history_rules.specs.Events.{Entry as HistoryEntry};
ghost use Rattle.world_entries.specs.Entries.{entry_of};
ghost use Rattle.printed_history.specs.Reading.{IsSoFar, contents_in};
ghost use Rattle.kept_lines.specs.Lines.{digest_of, digest_words, entry_words, kept_line};
ghost use Rattle.kept_lines.specs.Adding.{cast_in};

use checked_frames::Checked;
use message_forms::write_frame;
use plain_lists::Want;
use printed_history::SoFar;
use run_lines::put_entry;
use scenario_file::Cast;
use sha2::{Digest, Sha256};
use std::alloc::Global;
use world_entries::Entry;

fn hash_frame(alloc: Global, hasher: &mut Sha256, frame: &Checked) -> Result<(), Want>
    ensures { OnOk result ((m : List ℕ) → Holds256 hasher.old m → Holds256 hasher.new (m ++ frame_text frame.now)) }
{
    let bytes = write_frame(alloc, frame.frame())?;
    hasher.update(bytes.as_slice());
    Ok(())
}

fn digest_of(alloc: Global, frames: &[Checked]) -> Result<[u8; 32], Want>
    ensures { IfOk result (λ digest. digest ≡ digest_of frames.now) }
{
    let mut hasher = Sha256::new();
    for frame in frames {
        hash_frame(alloc, &mut hasher, frame)?;
    }
    Ok(hasher.finalize())
}

fn put_digest(alloc: Global, bytes: &mut Vec<u8>, frames: &[Checked]) -> Result<(), Want>
    ensures { OnOk result (bytes.new.items ≡ bytes.old.items ++ digest_words frames.now) }
{
    let digest = digest_of(alloc, frames)?;
    let digits = hex::encode(alloc, digest)?;
    bytes.extend_from_slice(b" digest ")?;
    bytes.extend_from_slice(digits.as_bytes())?;
    Ok(())
}

/// Appends the line of an entry in a printed run, without its line feed.
fn put_words(alloc: Global, bytes: &mut Vec<u8>, cast: Cast, entry: &Entry) -> Result<(), Want>
    requires { actors_of cast ≤ 26 }
    ensures { OnOk result (bytes.new.items ≡ bytes.old.items ++ entry_words cast (entry_of entry.now)) }
{
    let mut text = String::new(alloc);
    put_entry(alloc, &mut text, cast, false, entry)?;
    let line = text.as_bytes();
    bytes.extend_from_slice(&line[..line.len() - 1])?;
    Ok(())
}

/// Appends the line that is kept of a history's last entry, without its line feed.
pub(crate) fn put_line(
    alloc: Global,
    bytes: &mut Vec<u8>,
    cast: Cast,
    so_far: &SoFar<'_>,
) -> Result<(), Want>
    requires at_hand { IsSoFar so_far.now }
    requires some { 0 < length so_far.now.history }
    requires cast { cast ≡ cast_in so_far.now }
    requires few { actors_of cast ≤ 26 }
    ensures { OnOk result ((before : List HistoryEntry) (e : HistoryEntry) → so_far.now.history ≡ before ++ e ∷ []
        → bytes.new.items ≡ bytes.old.items ++ kept_line (contents_in so_far.now) before e) }
{
    put_words(alloc, bytes, cast, so_far.last())?;
    put_digest(alloc, bytes, so_far.last_said())?;
    Ok(())
}

/// Appends the line that is kept of a history's last entry, with its line feed.
pub fn put_last(alloc: Global, bytes: &mut Vec<u8>, so_far: &SoFar<'_>) -> Result<(), Want>
    requires at_hand { IsSoFar so_far.now }
    requires some { 0 < length so_far.now.history }
    ensures { OnOk result ((before : List HistoryEntry) (e : HistoryEntry) → so_far.now.history ≡ before ++ e ∷ []
        → bytes.new.items ≡ bytes.old.items ++ (kept_line (contents_in so_far.now) before e ++ codes "\n")) }
{
    put_line(alloc, bytes, so_far.company().cast(), so_far)?;
    bytes.push(b'\n')?;
    Ok(())
}
