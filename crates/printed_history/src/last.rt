//! What is at hand of a history: its last entry with what was said there, and the bench of each actor at hand.
ghost use Rattle.std.specs.Prelude.{◌≡◌, ◌++◌, ◌∷◌, ◌<◌, [], List, length, true};
ghost use Rattle.history_rules.specs.Events.{Entry as HistoryEntry};
ghost use Rattle.history_rules.specs.Setup.{own};
ghost use Rattle.bench_rules.specs.Lists.{frames_after};
ghost use Rattle.world_entries.specs.Entries.{entry_of};
ghost use Rattle.world_rules.specs.Scenarios.{actors_in};
ghost use Rattle.world_history.specs.Benches.{bench_in};
ghost use Rattle.printed_history.specs.Reading.{IsSoFar, contents_in, is_at_hand, world_in};

use crate::reading::SoFar;
use checked_frames::Checked;
use world_entries::Entry;
use world_history::Bench;

impl SoFar<'_> {
    /// The bench of an actor at hand: its list, what it has come to, and how many leaves it has left.
    pub fn bench(&self, actor: u32) -> &Bench
        requires at_hand { IsSoFar self.now }
        requires there { actor < actors_in (contents_in self.now) }
        requires own { is_at_hand self.now actor ≡ true }
        ensures { result.now ≡ bench_in (contents_in self.now) self.now.history actor }
    {
        let place = self.place(actor);
        &self.benches[place]
    }

    /// The entry that was added last.
    pub fn last(&self) -> &Entry
        requires { 0 < length self.now.history }
        ensures { (before : List HistoryEntry) (e : HistoryEntry) → self.now.history ≡ before ++ e ∷ [] → entry_of result.now ≡ e }
    {
        let entries = self.history.entries();
        let last = entries.len() - 1;
        &entries[last]
    }

    /// The frames of what was said at the last entry, in order. A copy of one shares the frame.
    pub fn last_said(&self) -> &[Checked]
        requires at_hand { IsSoFar self.now }
        requires some { 0 < length self.now.history }
        ensures { (before : List HistoryEntry) (e : HistoryEntry) → self.now.history ≡ before ++ e ∷ []
            → result.now ≡ frames_after (world_in self.now) e.actor (own before e.actor) e }
    {
        let bench = self.bench(self.last().actor);
        let last = bench.list().len() - 1;
        match bench.frames_at(last) {
            Some(frames) => frames,
            None => unreachable!(),
        }
    }
}
