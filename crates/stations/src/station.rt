//! A station: what its actor did, and what it makes of what comes.
ghost use Rattle.std.specs.Prelude.{◌≡◌, ◌≤◌, ◌<◌, ◌^◌, ◌++◌, ◌∷◌, [], List, true, length, map, nat_lt, IfOk, OnOk, IsErrOf};
ghost use Rattle.client_roles.specs.Roles.{carries_well};
ghost use Rattle.history_rules.specs.Events.{Entry as HistoryEntry};
ghost use Rattle.world_entries.specs.Entries.{entry_of};
ghost use Rattle.kept_lines.specs.Lines.{kept_file};
ghost use Rattle.run_lines.specs.declared.event_line.EventLine.TheVariants as line;
ghost use Rattle.printed_history.specs.Reading.{contents_in};
ghost use Rattle.station_rules.specs.Coming.{is_given, is_repeated};
ghost use Rattle.station_rules.specs.Answers.{Start, Given};
ghost use Rattle.station_rules.specs.Notes.{begun_note, notes_since, reached};
ghost use Rattle.station_lives.specs.Saying.{word_lines, words_since};
ghost use Rattle.stations.specs.Asking.{IsGivenAt, asked_by};
ghost use Rattle.kept_lines.specs.Adding.{cast_in};
ghost use Rattle.stations.specs.Marks.{reached_by};
ghost use Rattle.stations.specs.Station.{IsReady, IsAhead, HasAnswered, Enters, bench_of, list_after, list_of};
ghost use Rattle.stations.specs.Taken.{AreTaken};
ghost use Rattle.stations.specs.Telling.{Tells};

use crate::asking::Ask;
use crate::beginning::MOST_KEPT;
use crate::notes::{Marks, marks_of, note_begun, note_since};
use crate::taken::Taken;
use crate::words::say_frames;
use checked_frames::RingMemory;
use client_roles::laws::event_carries_well;
use kept_lines::put_last;
use plain_lists::Want;
use printed_history::SoFar;
use run_lines::EventLine;
use station_files::Batch;
use station_rules::laws::answered_is_station;
use std::alloc::AllocError;
use thiserror::Error;
use world_entries::Entry;

/// Why an event was not taken.
#[derive(Clone, Copy, Debug, PartialEq, Eq, Error)]
pub enum TakeRefusal {
    /// The file would have more bytes than are read again.
    #[error("full")]
    Full,
    #[error("want of memory")]
    Want,
}

impl From<Want> for TakeRefusal {
    ghost use Rattle.std.specs.Prelude.{◌≡◌};
    ghost use Rattle.stations.specs.declared.station.TakeRefusal.TheVariants.{Want as WantRefusal};

    ghost from_gives = { λ _ refusal. refusal ≡ WantRefusal };

    fn from(_refused: Want) -> TakeRefusal {
        TakeRefusal::Want
    }
}

impl From<AllocError> for TakeRefusal {
    ghost use Rattle.std.specs.Prelude.{◌≡◌};
    ghost use Rattle.stations.specs.declared.station.TakeRefusal.TheVariants.{Want as WantRefusal};

    ghost from_gives = { λ _ refusal. refusal ≡ WantRefusal };

    fn from(_refused: AllocError) -> TakeRefusal {
        TakeRefusal::Want
    }
}

/// One actor by itself, with what is at hand of its entries. What it is that they are a station's, and that all of this is
/// theirs, is `IsReady`.
pub struct Station<'a> {
    pub so_far: SoFar<'a>,
    pub actor: u32,
    pub taken: Taken,
    /// How many bytes are kept of the entries.
    pub size: u64,
    /// Of frames that were checked with the ring of `so_far`.
    pub memory: RingMemory,
}

// Taken apart here once, so that no function proves it again.
impl Drop for Station<'_> {
    fn drop(self) {
        let Station {
            so_far: _,
            actor: _,
            taken: _,
            size: _,
            memory: _,
        } = self;
    }
}

impl<'a> Station<'a> {
    /// The station whose actor did this, of which so many bytes are kept.
    pub(crate) fn of(so_far: SoFar<'a>, actor: u32, size: u64) -> Result<Station<'a>, Want>
        ensures made { IfOk result (λ station. (station.so_far ≡ so_far.entry) × (station.actor ≡ actor) × (station.size ≡ size)) }
        ensures taken { IfOk result (λ station. AreTaken so_far.entry.history station.taken) }
    {
        let taken = Taken::of(so_far.alloc, so_far.history.entries())?;
        let memory = RingMemory::new(so_far.alloc, &so_far.ring);
        Ok(Station {
            so_far,
            actor,
            taken,
            size,
            memory,
        })
    }

    /// Begins to live: tells how far its actor is. Where that has done nothing yet, the start is its first entry.
    pub(crate) fn start(&mut self, batch: &mut Batch) -> Result<(), TakeRefusal>
        requires ready { IsReady self.old }
        ensures answered { OnOk result (HasAnswered self.old Start batch.old self.new batch.new) }
        ensures full { IsErrOf result TakeRefusal.Full → 2 ^ 32 ≤ length (kept_file (contents_in self.old.so_far) (list_after self.old Start)) }
    {
        answered_is_station();
        self.tell_begun(batch)?;
        if self.has_begun() {
            return Ok(());
        }
        let since = self.how_far();
        let comes = self
            .so_far
            .take(&mut self.memory, self.actor, EventLine::Restart)?;
        if !comes {
            return Ok(());
        }
        self.keep_last(batch, since)
    }

    /// Answers what is asked: the line that is kept of the entry that it makes, if it makes one, and what is told, are added to
    /// what waits. After a refusal neither the station nor what waits is of any use.
    pub(crate) fn take(&mut self, batch: &mut Batch, ask: Ask) -> Result<(), TakeRefusal>
        requires ready { IsReady self.old }
        requires given { IsGivenAt ask }
        ensures answered { OnOk result (HasAnswered self.old (asked_by ask) batch.old self.new batch.new) }
        ensures full { IsErrOf result TakeRefusal.Full → 2 ^ 32 ≤ length (kept_file (contents_in self.old.so_far) (list_after self.old (asked_by ask))) }
    {
        match ask {
            Ask::Given(line) => self.take_given(batch, line),
            Ask::Again { stamp } => {
                self.say_since(batch, stamp)?;
                Ok(())
            }
            Ask::Unclear => {
                batch.note(b"note badline\n")?;
                Ok(())
            }
        }
    }

    /// Adds the entry of an event from outside, if it may come.
    fn take_given(&mut self, batch: &mut Batch, line: EventLine) -> Result<(), TakeRefusal>
        requires ready { IsReady self.old }
        requires given { is_given line ≡ true }
        ensures answered { OnOk result (HasAnswered self.old (Given line) batch.old self.new batch.new) }
        ensures full { IsErrOf result TakeRefusal.Full → 2 ^ 32 ≤ length (kept_file (contents_in self.old.so_far) (list_after self.old (Given line))) }
    {
        answered_is_station();
        if self.is_repeated(&line) {
            batch.note(b"note repeated\n")?;
            return Ok(());
        }
        let since = self.how_far();
        let comes = self.so_far.take(&mut self.memory, self.actor, line)?;
        if !comes {
            batch.note(b"note refused\n")?;
            return Ok(());
        }
        self.keep_last(batch, since)
    }

    /// Whether the frame of this line was taken before.
    fn is_repeated(&self, line: &EventLine) -> bool
        ensures { (list : List HistoryEntry) → AreTaken list self.now.taken → result ≡ is_repeated list line.now }
    {
        match line {
            EventLine::Frame { bytes } => self.taken.has(bytes.as_slice()),
            _ => false,
        }
    }

    /// How far its actor has come.
    fn how_far(&self) -> Marks
        requires { IsReady self.now }
        ensures { reached_by result ≡ reached (bench_of self.now) }
    {
        let bench = self.so_far.bench(self.actor);
        marks_of(bench)
    }

    /// Adds the line of the last entry, which isn't counted yet, its words, and what its actor came to at it since it was so far,
    /// to what waits.
    fn keep_last(&mut self, batch: &mut Batch, since: Marks) -> Result<(), TakeRefusal>
        requires { IsAhead self.old (reached_by since) }
        ensures entered { OnOk result ((ahead : IsAhead self.old (reached_by since)) → Enters ahead.before ahead.entry self.old batch.old self.new batch.new) }
        ensures full { IsErrOf result TakeRefusal.Full → 2 ^ 32 ≤ length (kept_file (contents_in self.old.so_far) (list_of self.old)) }
    {
        let alloc = self.so_far.alloc;
        let mut line = Vec::new(alloc);
        put_last(alloc, &mut line, &self.so_far)?;
        let size = self.size + line.len() as u64;
        if size > MOST_KEPT {
            return Err(TakeRefusal::Full);
        }
        batch.keep(line.as_slice())?;
        self.taken.add(alloc, self.so_far.last())?;
        self.size = size;
        self.say_at(batch, self.so_far.history.len() - 1)?;
        self.tell_since(batch, since)?;
        Ok(())
    }

    /// Whether its actor did anything yet.
    fn has_begun(&self) -> bool
        ensures { result ≡ nat_lt 0 (length (list_of self.now)) }
    {
        self.so_far.history.len() > 0
    }

    /// Adds the note of how far its actor is to what is to be put out.
    fn tell_begun(&self, batch: &mut Batch) -> Result<(), Want>
        requires { IsReady self.now }
        ensures { OnOk result (batch.new ≡ record batch.old { out = batch.old.out ++ begun_note (contents_in self.now.so_far) self.now.actor (list_of self.now) }) }
    {
        let bench = self.so_far.bench(self.actor);
        let entries = self.so_far.history.len() as u64;
        note_begun(self.so_far.alloc, batch, entries, bench.left())
    }

    /// Adds what its actor came to since it was so far to what is to be put out.
    fn tell_since(&self, batch: &mut Batch, since: Marks) -> Result<(), Want>
        requires { IsReady self.now }
        ensures { OnOk result (Tells (contents_in self.now.so_far) (notes_since (cast_in self.now.so_far) (reached_by since) (bench_of self.now)) batch.old batch.new) }
    {
        let bench = self.so_far.bench(self.actor);
        let cast = self.so_far.company().cast();
        note_since(self.so_far.alloc, batch, cast, since, bench)
    }

    /// Adds the words of the entry at a place of the list to what is to be put out.
    fn say_at(&self, batch: &mut Batch, place: usize) -> Result<(), Want>
        requires ready { IsReady self.now }
        requires there { place < length (list_of self.now) }
        ensures { OnOk result ((before after : List HistoryEntry) (e : HistoryEntry) → list_of self.now ≡ before ++ e ∷ after → length before ≡ place
            → Tells (contents_in self.now.so_far) (word_lines (contents_in self.now.so_far) before e) batch.old batch.new) }
    {
        let bench = self.so_far.bench(self.actor);
        carries_at(bench.list(), place);
        match bench.frames_at(place) {
            Some(frames) => say_frames(self.so_far.alloc, batch, &self.so_far, self.actor, frames),
            None => unreachable!(),
        }
    }

    /// Adds the words of all entries from a stamp on to what is to be put out.
    fn say_since(&self, batch: &mut Batch, stamp: u64) -> Result<(), Want>
        requires { IsReady self.now }
        ensures { OnOk result (Tells (contents_in self.now.so_far) (words_since (contents_in self.now.so_far) stamp [] (list_of self.now)) batch.old batch.new) }
    {
        let count = self.so_far.history.len() as u64;
        for place in stamp.min(count)..count {
            self.say_at(batch, place as usize)?;
        }
        Ok(())
    }
}

/// That the event at a place has numbers of their sizes.
fn carries_at(entries: &[Entry], place: usize)
    requires { place < length entries.now }
    ensures { (before after : List HistoryEntry) (e : HistoryEntry) → map entry_of entries.now ≡ before ++ e ∷ after → length before ≡ place
        → carries_well e.event ≡ true }
{
    event_carries_well(&entries[place].event);
}
