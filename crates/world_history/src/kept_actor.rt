//! An actor with its keeper.
ghost use Rattle.std.specs.Prelude.{◌≡◌, ◌+◌, ◌<◌, ◌^◌, ◌++◌, ◌∷◌, [], length, true, false, nat_lt, Some, is_some, is_none, OnOk, OnErr, IfOk, IfSome, IsErr, IsSomeAnd, IsTrue};
ghost use Rattle.std.specs.List.{list_all};
ghost use Rattle.std.specs.Option.{option_map};
ghost use Rattle.scenario_file.specs.Reading.{contents};
ghost use Rattle.scenario_file.specs.Valid.{IsScenario};
ghost use Rattle.history_rules.specs.Setup.{stands};
ghost use Rattle.history_rules.specs.Events.{is_restart};
ghost use Rattle.history_rules.specs.Legal.{TakesWell};
ghost use Rattle.world_entries.specs.Entries.{event_of};
ghost use Rattle.play_words.specs.Accepted.{is_accepted};
ghost use Rattle.world_rules.specs.Scenarios.{setup_of, group_in, masters_in};
ghost use Rattle.world_history.specs.State.{setup_in, with_entry, frames_said, spoken, after_word};
ghost use Rattle.entry_texts.specs.Texts.{kept_text, entry_text};
ghost use Rattle.entry_texts.specs.Fits.{FitsEntry, HasCount};
ghost use Rattle.world_history.specs.Lists.{last_of, texts_of, IsKeptList, replayed, frames_of_last};
ghost use Rattle.world_history.specs.Keeping.{Appended, HasRead};
ghost use Rattle.world_history.specs.KeptState.{KeptState, HasKeeper, Keeps, halted_in, first_keeper, first_state, frames_kept, posted};

use crate::keeping::spell_last;
use crate::reviving::replay;
use crate::{Bench, Event};
use message_types::Frame;
use outside::{KeepAnswer, Keeper, MemoryKeeper};
use plain_lists::Want;
use play_words::Word;
use scenario_file::Scenario;
use std::alloc::Global;
use std::marker::Model;

/// An actor with its keeper: each entry is kept before its words are given away. An intruded master has no keeper.
pub struct Kept {
    alloc: Global,
    bench: Bench,
    keeper: Option<MemoryKeeper>,
    is_halted: bool,
    is_spent: bool,
}

// Taken apart here once, so that no crate above proves it again.
impl Drop for Kept {
    fn drop(self) {
        let Kept {
            alloc: _,
            bench: _,
            keeper: _,
            is_halted: _,
            is_spent: _,
        } = self;
    }
}

impl Model for Kept {
    ghost use Rattle.std.specs.Prelude.{◌≡◌, false};
    ghost use Rattle.std.specs.Coded.{codes};
    ghost use Rattle.interlocks.specs.Code.{formula_code};
    ghost use Rattle.world_history.specs.KeptState.{KeptState, Keeps};

    ghost Value = { KeptState };

    ghost coded = { Prim.hlevel (codes, formula_code) };

    ghost view = { λ kept. record { bench = kept.bench; keeper = kept.keeper; is_spent = kept.is_spent } };

    ghost invariant = { λ kept. kept.is_spent ≡ false → Keeps kept.bench kept.keeper kept.is_halted };
}

// Whether the last entry could be kept.
fn keep_last(alloc: Global, bench: &Bench, keeper: &mut MemoryKeeper) -> Result<bool, Want>
    requires { IsSomeAnd (last_of bench.now.list) (λ e. HasCount e.event) }
    ensures kept { IfOk result (λ kept. IfSome (last_of bench.now.list) (λ e. Appended keeper.old (kept_text e) kept keeper.new)) }
    ensures fits { OnOk result (IfSome (last_of bench.now.list) (λ e. FitsEntry e.stamp e.event)) }
{
    let text = spell_last(alloc, bench)?;
    match keeper.append(&text) {
        Ok(()) => Ok(true),
        Err(KeepAnswer::Failed) => Ok(false),
        Err(KeepAnswer::Want) => Err(Want),
    }
}

// Adds the entry of an event and keeps it. The frames of what the actor says there; none where the keeper failed.
fn act_and_keep(
    alloc: Global,
    bench: &mut Bench,
    keeper: &mut MemoryKeeper,
    stamp: u64,
    event: Event,
) -> Result<Option<Vec<Frame>>, Want>
    requires fits { (setup_in bench.old).fits bench.old.actor (event_of event) ≡ true }
    requires later { list_all (λ e. nat_lt e.stamp stamp) bench.old.list ≡ true }
    requires taken { TakesWell (setup_in bench.old) stamp (event_of event) }
    requires short { length bench.old.list < 2 ^ 32 }
    requires count { HasCount (event_of event) }
    ensures entry { OnOk result (bench.new ≡ with_entry bench.old stamp (event_of event)) }
    ensures kept { IfOk result (λ said. Appended keeper.old (entry_text stamp (event_of event)) (is_some said) keeper.new) }
    ensures writable { OnOk result (FitsEntry stamp (event_of event)) }
    ensures frames { IfOk result (λ said. IfSome said (λ frames. frames.items ≡ frames_said bench.old stamp (event_of event))) }
    ensures stand { IfOk result (λ said. IfSome said (λ frames. list_all (stands (setup_in bench.old)) frames.items ≡ true)) }
{
    let frames = bench.act(stamp, event)?;
    let kept = keep_last(alloc, bench, keeper)?;
    if !kept {
        return Ok(None);
    }
    Ok(Some(frames))
}

// Puts the actor that is made anew from what is kept in the place of the one that it was. The frames of its last entry; none
// where the keeper failed.
fn reread(
    alloc: Global,
    scenario: &Scenario,
    bench: &mut Bench,
    keeper: &mut MemoryKeeper,
) -> Result<Option<Vec<Frame>>, Want>
    requires valid { IsScenario (contents scenario.now) }
    requires there { bench.old.actor < (group_in (contents scenario.now)).n + (group_in (contents scenario.now)).clients }
    requires can { IsKeptList (contents scenario.now) bench.old.actor bench.old.list }
    requires whole { bench.old ≡ replayed (contents scenario.now) bench.old.actor bench.old.list }
    requires kept { keeper.old.entries ≡ texts_of bench.old.list }
    ensures same { OnOk result (bench.new ≡ bench.old) }
    ensures read { IfOk result (λ last. HasRead keeper.old (is_some last) keeper.new) }
    ensures frames { IfOk result (λ last. IfSome last (λ frames. frames.items ≡ frames_of_last (setup_in bench.old) bench.old.actor bench.old.list)) }
    ensures stand { IfOk result (λ last. IfSome last (λ frames. list_all (stands (setup_in bench.old)) frames.items ≡ true)) }
{
    match keeper.entries() {
        Ok(kept) => {
            let actor = bench.actor();
            let (revived, frames) = replay(alloc, scenario, actor, &kept)?;
            *bench = revived;
            Ok(Some(frames))
        }
        Err(KeepAnswer::Failed) => Ok(None),
        Err(KeepAnswer::Want) => Err(Want),
    }
}

// A restart of a correct actor. The frames of the entry before it; none where the keeper failed.
fn restart(
    alloc: Global,
    scenario: &Scenario,
    bench: &mut Bench,
    keeper: &mut MemoryKeeper,
    stamp: u64,
) -> Result<Option<Vec<Frame>>, Want>
    requires keeps { HasKeeper bench.old keeper.old false }
    requires scenario { contents scenario.now ≡ bench.old.world }
    requires fits { (setup_in bench.old).fits bench.old.actor (event_of Event.Restart) ≡ true }
    requires later { list_all (λ e. nat_lt e.stamp stamp) bench.old.list ≡ true }
    requires short { length bench.old.list < 2 ^ 32 }
    ensures entry { OnOk result (bench.new ≡ with_entry bench.old stamp (event_of Event.Restart)) }
    ensures keeps { IfOk result (λ last. HasKeeper bench.new keeper.new (is_none last)) }
    ensures frames { IfOk result (λ last. posted last ≡ frames_kept bench.old stamp (event_of Event.Restart)) }
    ensures stand { IfOk result (λ last. list_all (stands (setup_in bench.old)) (posted last) ≡ true) }
{
    let read = reread(alloc, scenario, bench, keeper)?;
    let Some(last) = read else {
        bench.act(stamp, Event::Restart)?;
        return Ok(None);
    };
    let said = act_and_keep(alloc, bench, keeper, stamp, Event::Restart)?;
    let Some(_) = said else {
        return Ok(None);
    };
    Ok(Some(last))
}

// Any other event of a correct actor. The frames of what it says; none where the keeper failed.
fn go_on(
    alloc: Global,
    bench: &mut Bench,
    keeper: &mut MemoryKeeper,
    stamp: u64,
    event: Event,
) -> Result<Option<Vec<Frame>>, Want>
    requires keeps { HasKeeper bench.old keeper.old false }
    requires other { is_restart (event_of event) ≡ false }
    requires fits { (setup_in bench.old).fits bench.old.actor (event_of event) ≡ true }
    requires later { list_all (λ e. nat_lt e.stamp stamp) bench.old.list ≡ true }
    requires taken { TakesWell (setup_in bench.old) stamp (event_of event) }
    requires short { length bench.old.list < 2 ^ 32 }
    ensures entry { OnOk result (bench.new ≡ with_entry bench.old stamp (event_of event)) }
    ensures keeps { IfOk result (λ said. HasKeeper bench.new keeper.new (is_none said)) }
    ensures frames { IfOk result (λ said. posted said ≡ frames_kept bench.old stamp (event_of event)) }
    ensures stand { IfOk result (λ said. list_all (stands (setup_in bench.old)) (posted said) ≡ true) }
{
    act_and_keep(alloc, bench, keeper, stamp, event)
}

// The frames to post of an event; none where the keeper failed.
fn add(
    alloc: Global,
    scenario: &Scenario,
    bench: &mut Bench,
    keeper: &mut Option<MemoryKeeper>,
    stamp: u64,
    event: Event,
) -> Result<Option<Vec<Frame>>, Want>
    requires keeps { Keeps bench.old keeper.old false }
    requires scenario { contents scenario.now ≡ bench.old.world }
    requires fits { (setup_in bench.old).fits bench.old.actor (event_of event) ≡ true }
    requires later { list_all (λ e. nat_lt e.stamp stamp) bench.old.list ≡ true }
    requires taken { TakesWell (setup_in bench.old) stamp (event_of event) }
    requires short { length bench.old.list < 2 ^ 32 }
    ensures entry { OnOk result (bench.new ≡ with_entry bench.old stamp (event_of event)) }
    ensures keeps { IfOk result (λ said. Keeps bench.new keeper.new (is_none said)) }
    ensures frames { IfOk result (λ said. posted said ≡ frames_kept bench.old stamp (event_of event)) }
    ensures stand { IfOk result (λ said. list_all (stands (setup_in bench.old)) (posted said) ≡ true) }
{
    let Some(keeper) = keeper else {
        let frames = bench.act(stamp, event)?;
        return Ok(Some(frames));
    };
    match event {
        Event::Restart => restart(alloc, scenario, bench, keeper, stamp),
        event => go_on(alloc, bench, keeper, stamp, event),
    }
}

// The keeper of an actor before its first event.
fn begin(alloc: Global, scenario: &Scenario, actor: u32) -> Result<Option<MemoryKeeper>, Want>
    requires valid { IsScenario (contents scenario.now) }
    requires there { actor < (group_in (contents scenario.now)).n + (group_in (contents scenario.now)).clients }
    ensures { IfOk result (λ keeper. keeper ≡ first_keeper (setup_of (contents scenario.now)) actor) }
{
    if actor < scenario.sizes.n && scenario.intruded.has(actor) {
        return Ok(None);
    }
    let Some(failing) = scenario.failing.get(actor as usize) else {
        unreachable!()
    };
    let failing = Vec::from_slice(alloc, failing.as_slice())?;
    Ok(Some(MemoryKeeper::make(alloc, failing)))
}

impl Kept {
    /// An actor of a scenario before its first event, with a keeper of which the calls fail that the scenario says.
    pub fn make(alloc: Global, scenario: &Scenario, actor: u32) -> Result<Kept, Want>
        requires valid { IsScenario (contents scenario.now) }
        requires there { actor < (group_in (contents scenario.now)).n + (group_in (contents scenario.now)).clients }
        ensures { IfOk result (λ kept. kept ≡ first_state (contents scenario.now) actor) }
    {
        let bench = Bench::make(alloc, scenario, actor)?;
        let keeper = begin(alloc, scenario, actor)?;
        Ok(Kept {
            alloc,
            bench,
            keeper,
            is_halted: false,
            is_spent: false,
        })
    }

    /// The actor without its keeper. While memory didn't run out, the two go together.
    pub fn bench(&self) -> &Bench
        ensures bench { result.now ≡ self.now.bench }
        ensures keeps { self.now.is_spent ≡ false → Keeps self.now.bench self.now.keeper (halted_in self.now.bench) }
    {
        &self.bench
    }

    /// Whether a call of its keeper failed. Such an actor acts no more.
    pub fn halted(&self) -> bool
        ensures { self.now.is_spent ≡ false → result ≡ halted_in self.now.bench }
    {
        self.is_halted
    }

    pub fn into_bench(self) -> Bench
        ensures { result ≡ self.bench }
    {
        let Kept {
            alloc: _,
            bench,
            keeper: _,
            is_halted: _,
            is_spent: _,
        } = self;
        bench
    }

    /// Adds the entry of an event, and keeps it. It gives the frames of what the actor says there, at a restart those of the
    /// entry before, and none where the keeper failed. At a restart the actor is made anew from what is kept; where that can't
    /// be read, the entry is added to the actor as it was, and not kept. After want of memory it is spent: it answers `Want`
    /// from then on.
    pub fn act(&mut self, scenario: &Scenario, stamp: u64, event: Event) -> Result<Vec<Frame>, Want>
        requires scenario { contents scenario.now ≡ self.old.bench.world }
        requires running { halted_in self.old.bench ≡ false }
        requires fits { (setup_in self.old.bench).fits self.old.bench.actor (event_of event) ≡ true }
        requires later { list_all (λ e. nat_lt e.stamp stamp) self.old.bench.list ≡ true }
        requires taken { TakesWell (setup_in self.old.bench) stamp (event_of event) }
        requires short { length self.old.bench.list < 2 ^ 32 }
        ensures entry { OnOk result (self.new.bench ≡ with_entry self.old.bench stamp (event_of event)) }
        ensures frames { IfOk result (λ frames. frames.items ≡ frames_kept self.old.bench stamp (event_of event)) }
        ensures stand { IfOk result (λ frames. list_all (stands (setup_in self.old.bench)) frames.items ≡ true) }
        ensures works { OnOk result (self.new.is_spent ≡ false) }
        ensures refused { OnErr result (self.new.is_spent ≡ true) }
        ensures spent { self.old.is_spent ≡ true → IsErr result }
    {
        if self.is_spent {
            return Err(Want);
        }
        self.is_spent = true;
        let said = add(
            self.alloc,
            scenario,
            &mut self.bench,
            &mut self.keeper,
            stamp,
            event,
        )?;
        self.is_halted = said.is_none();
        self.is_spent = false;
        Ok(said.unwrap_or(Vec::new(self.alloc)))
    }

    /// The bytes of a word that an intruded master is made to say: raw ones as they stand, else the frame of the body that the
    /// word is, signed with the next leaf of the master's key. None where the master knows too little for that body or has no
    /// leaf left. Nothing is kept of it. After want of memory it is spent: it answers `Want` from then on.
    pub fn speak(&mut self, word: &Word) -> Result<Option<Vec<u8>>, Want>
        requires master { self.old.bench.actor < masters_in self.old.bench.world }
        requires intruded { (setup_in self.old.bench).intruded self.old.bench.actor ≡ true }
        requires accepted { IsTrue (is_accepted word.now) }
        ensures spoken { IfOk result (λ bytes. option_map (λ v. v.items) bytes ≡ spoken self.old.bench word.now) }
        ensures bench { OnOk result (self.new.bench ≡ after_word self.old.bench word.now) }
        ensures keeper { self.new.keeper ≡ self.old.keeper }
        ensures works { OnOk result (self.new.is_spent ≡ false) }
        ensures refused { OnErr result (self.new.is_spent ≡ true) }
        ensures spent { self.old.is_spent ≡ true → IsErr result }
    {
        if self.is_spent {
            return Err(Want);
        }
        self.is_spent = true;
        let bytes = self.bench.speak(word)?;
        self.is_spent = false;
        Ok(bytes)
    }
}
