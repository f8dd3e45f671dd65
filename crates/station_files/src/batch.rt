ghost use Rattle.std.specs.Prelude.{◌≡◌, ◌≤◌, ◌++◌, true, OnOk, OnErr, IsErrOf};
ghost use Rattle.outside.specs.Faults.{HasRisen};
ghost use Rattle.outside.specs.Keepers.{KeepCounts};
ghost use Rattle.station_files.specs.Batch.{Waiting, none_waits, kept_with, HasBegun, Releases, ReleaseCounts};

use crate::kept_file::KeptFile;
use outside::{KeepAnswer, PutAnswer, Sink};
use std::alloc::{AllocError, Global};
use std::marker::Model;
use thiserror::Error;

/// Why what waits was not released.
#[derive(Clone, Copy, Debug, PartialEq, Eq, Error)]
pub enum ReleaseAnswer {
    /// Nothing was put out.
    #[error("not kept")]
    NotKept,
    #[error("not put out")]
    NotPut,
    #[error("want of memory")]
    Want,
}

/// The lines of entries that are to be kept, and what is to be put out once they are.
#[derive(Drop)]
pub struct Batch {
    lines: Vec<u8>,
    out: Vec<u8>,
    has_words: bool,
}

impl Model for Batch {
    ghost use Rattle.station_files.specs.Batch.{Waiting};

    ghost Value = { Waiting };

    ghost view = { λ batch. record { lines = batch.lines.items; out = batch.out.items; has_words = batch.has_words } };
}

impl Batch {
    pub fn new(alloc: Global) -> Self
        ensures { result ≡ none_waits }
    {
        Batch {
            lines: Vec::new(alloc),
            out: Vec::new(alloc),
            has_words: false,
        }
    }

    /// Adds to what is to be kept.
    pub fn keep(&mut self, line: &[u8]) -> Result<(), AllocError>
        ensures done { OnOk result (self.new ≡ record self.old { lines = self.old.lines ++ line.now }) }
        ensures unchanged { OnErr result (self.new ≡ self.old) }
    {
        self.lines.extend_from_slice(line)
    }

    /// Adds a word to what is to be put out.
    pub fn say(&mut self, word: &[u8]) -> Result<(), AllocError>
        ensures done { OnOk result (self.new ≡ record self.old { out = self.old.out ++ word.now; has_words = true }) }
        ensures unchanged { OnErr result (self.new ≡ self.old) }
    {
        self.out.extend_from_slice(word)?;
        self.has_words = true;
        Ok(())
    }

    /// Adds a note to what is to be put out.
    pub fn note(&mut self, note: &[u8]) -> Result<(), AllocError>
        ensures done { OnOk result (self.new ≡ record self.old { out = self.old.out ++ note.now }) }
        ensures unchanged { OnErr result (self.new ≡ self.old) }
    {
        self.out.extend_from_slice(note)
    }

    /// Keeps what is to be kept, and then puts out what is to be put out. Entries that came together are settled together, and
    /// where they say nothing they wait for a later word. Whatever is answered, nothing waits here any more, so no line is kept
    /// twice and no word is put that isn't kept: after a refusal the file may have the lines or a beginning of them, and what it
    /// has is read again.
    pub fn release<F: KeptFile, S: Sink>(
        &mut self,
        file: &mut F,
        sink: &mut S,
    ) -> Result<(), ReleaseAnswer>
        ensures released { Releases self.old (F.held file.old) (S.told sink.old) result (F.held file.new) (S.told sink.new) }
        ensures emptied { self.new ≡ none_waits }
        ensures not_kept { IsErrOf result ReleaseAnswer.NotKept → HasRisen (F.faults file.old) (F.faults file.new) }
        ensures not_put { IsErrOf result ReleaseAnswer.NotPut → HasRisen (S.faults sink.old) (S.faults sink.new) }
        ensures counted { ReleaseCounts result (F.faults file.old) (S.faults sink.old) (F.faults file.new) (S.faults sink.new) }
    {
        let lines = self.lines.as_slice();
        let answer = release_all(file, sink, lines, self.out.as_slice(), self.has_words);
        self.lines.clear();
        self.out.clear();
        self.has_words = false;
        answer
    }
}

// Keeps the lines, and then puts out what is to be put out.
fn release_all<F: KeptFile, S: Sink>(
    file: &mut F,
    sink: &mut S,
    lines: &[u8],
    out: &[u8],
    has_words: bool,
) -> Result<(), ReleaseAnswer>
    ensures released { Releases (record { lines = lines.now; out = out.now; has_words = has_words }) (F.held file.old) (S.told sink.old) result (F.held file.new) (S.told sink.new) }
    ensures not_kept { IsErrOf result ReleaseAnswer.NotKept → HasRisen (F.faults file.old) (F.faults file.new) }
    ensures not_put { IsErrOf result ReleaseAnswer.NotPut → HasRisen (S.faults sink.old) (S.faults sink.new) }
    ensures counted { ReleaseCounts result (F.faults file.old) (S.faults sink.old) (F.faults file.new) (S.faults sink.new) }
{
    match keep_lines(file, lines, has_words) {
        Ok(()) => {}
        Err(KeepAnswer::Failed) => return Err(ReleaseAnswer::NotKept),
        Err(KeepAnswer::Want) => return Err(ReleaseAnswer::Want),
    }
    match sink.put(out) {
        Ok(()) => Ok(()),
        Err(PutAnswer::Failed) => Err(ReleaseAnswer::NotPut),
        Err(PutAnswer::Want) => Err(ReleaseAnswer::Want),
    }
}

// Adds lines to a file, and makes all of it durable where this is asked for.
fn keep_lines<F: KeptFile>(file: &mut F, lines: &[u8], is_settled: bool) -> Result<(), KeepAnswer>
    ensures kept { OnOk result (F.held file.new ≡ kept_with (F.held file.old) lines.now is_settled) }
    ensures begun { OnErr result (HasBegun (F.held file.old) lines.now (F.held file.new)) }
    ensures failed { IsErrOf result KeepAnswer.Failed → HasRisen (F.faults file.old) (F.faults file.new) }
    ensures counted { KeepCounts result (F.faults file.old) (F.faults file.new) }
{
    file.append(lines)?;
    if is_settled {
        return file.settle();
    }
    Ok(())
}
