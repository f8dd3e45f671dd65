//! A history that is read entry by entry: each is added where it may come after those before it.
ghost use Rattle.std.specs.Prelude.{◌≡◌, ◌↔◌, ◌++◌, ◌∷◌, [], ◌^◌, ◌<◌, ◌&&◌, Some, None, length, map, true, nat_eq, IfOk, IfSome, IsSome, OnOk};
ghost use Rattle.scenario_file.specs.Reading.{contents, with_held};
ghost use Rattle.scenario_file.specs.Valid.{IsScenario};
ghost use Rattle.script_grammar.specs.Names.{who_of};
ghost use Rattle.history_rules.specs.Legal.{TakesWell, says};
ghost use Rattle.world_entries.specs.Entries.{event_of};
ghost use Rattle.world_history.specs.Benches.{bench_in};
ghost use Rattle.world_history.specs.Signed.{ring_in};
ghost use Rattle.world_rules.specs.Scenarios.{HasKey, actors_in};
ghost use Rattle.printed_history.specs.Histories.{entry_from, entry_next, entry_of_event, entry_with, event_from, standing_event, is_running, are_kinds};
ghost use Rattle.printed_history.specs.Reading.{IsSoFar, IsBegun, Comes, HasMore, Takes, contents_in, is_at_hand, known_by, place_of, those_of, world_in};

use crate::acting::act_at;
use crate::histories::Replay;
use checked_frames::{Checked, KeyRing, RingMemory};
use message_types::Body;
use plain_lists::{Items, Want};
use run_lines::{EntryLine, EventLine, kind_of};
use scenario_file::{HeldKeys, Scenario};
use script_grammar::{Company, Kind};
use std::alloc::Global;
use world_entries::{Event, History};
use world_history::{Bench, all_benches, calls_at, fails, held_ring, ring_of};

/// The entries read so far, with what is at hand of them: the benches of all actors, or of one by itself, who needs no more to
/// go on. What it is that the entries are a legal history of the scenario, and that benches, calls and frames are theirs, is
/// `IsSoFar`.
pub struct SoFar<'a> {
    pub alloc: Global,
    pub scenario: &'a Scenario,
    /// The keys by which the scenario is known where its seed isn't.
    pub held: Option<&'a HeldKeys>,
    /// The one actor whose bench is at hand; none where all actors' are.
    pub only: Option<u32>,
    pub ring: KeyRing,
    /// The benches of the actors at hand, in the order of their numbers.
    pub benches: Vec<Bench>,
    /// How many calls each actor's keeper had.
    pub calls: Vec<u64>,
    /// The frames that stand of each entry.
    pub posted: Items<Items<Checked>>,
    pub history: History,
}

// Taken apart here once, so that no function proves it again.
impl Drop for SoFar<'_> {
    fn drop(self) {
        let SoFar {
            alloc: _,
            scenario: _,
            held: _,
            only: _,
            ring: _,
            benches: _,
            calls: _,
            posted: _,
            history: _,
        } = self;
    }
}

impl<'a> SoFar<'a> {
    /// Before the first entry, with all actors at hand.
    pub fn begin(alloc: Global, scenario: &'a Scenario) -> Result<SoFar<'a>, Want>
        requires { IsScenario (contents scenario.now) }
        ensures { IfOk result (IsBegun (contents scenario.now) None) }
    {
        let benches = all_benches(alloc, scenario)?;
        let ring = ring_of(alloc, scenario)?;
        SoFar::first(alloc, scenario, None, None, ring, benches)
    }

    /// Before the first entry, with one actor at hand. No other actor's key is made.
    pub fn begin_one(alloc: Global, scenario: &'a Scenario, actor: u32) -> Result<SoFar<'a>, Want>
        requires scenario { IsScenario (contents scenario.now) }
        requires there { actor < actors_in (contents scenario.now) }
        ensures { IfOk result (IsBegun (contents scenario.now) (Some actor)) }
    {
        let bench = Bench::make(alloc, scenario, actor)?;
        let ring = ring_of(alloc, scenario)?;
        let benches = one_bench(alloc, bench)?;
        SoFar::first(alloc, scenario, None, Some(actor), ring, benches)
    }

    /// Before the first entry, with one actor at hand, by the keys that it holds and not by the scenario's seed. None where the key
    /// that is held isn't the one that the ring has of the actor.
    pub fn hold(
        alloc: Global,
        scenario: &'a Scenario,
        held: &'a HeldKeys,
        actor: u32,
    ) -> Result<Option<SoFar<'a>>, Want>
        requires scenario { IsScenario (contents scenario.now) }
        requires there { actor < actors_in (contents scenario.now) }
        requires ring { length held.now.ring ≡ actors_in (contents scenario.now) }
        ensures begun { IfOk result (λ found. IfSome found (IsBegun (with_held (contents scenario.now) (Some held.now)) (Some actor))) }
        ensures own { IfOk result (λ found. IsSome found ↔ HasKey (with_held (contents scenario.now) (Some held.now)) actor) }
    {
        identifier_size(&held.identifier);
        let found = Bench::hold(alloc, scenario, held, actor)?;
        let Some(bench) = found else {
            return Ok(None);
        };
        let ring = held_ring(alloc, scenario, held)?;
        let benches = one_bench(alloc, bench)?;
        let so_far = SoFar::first(alloc, scenario, Some(held), Some(actor), ring, benches)?;
        Ok(Some(so_far))
    }

    /// Before the first entry, with these benches at hand.
    fn first(
        alloc: Global,
        scenario: &'a Scenario,
        held: Option<&'a HeldKeys>,
        only: Option<u32>,
        ring: KeyRing,
        benches: Vec<Bench>,
    ) -> Result<SoFar<'a>, Want>
        requires scenario { IsScenario (contents scenario.now) }
        requires held { IsScenario (known_by scenario.now held) }
        requires ring { ring ≡ ring_in (known_by scenario.now held) }
        requires benches { benches.items ≡ map (bench_in (known_by scenario.now held) []) (those_of (known_by scenario.now held) only) }
        ensures { IfOk result (IsBegun (known_by scenario.now held.entry) only) }
    {
        let actors = scenario.cast().actors();
        let calls = vec![in alloc; 0u64; actors as usize]?;
        let posted = Items::new(alloc);
        let history = History::new(alloc);
        Ok(SoFar {
            alloc,
            scenario,
            held,
            only,
            ring,
            benches,
            calls,
            posted,
            history,
        })
    }

    /// Who is there in the scenario.
    pub fn company(&self) -> Company<'a>
        requires { IsSoFar self.now }
        ensures { result ≡ who_of (contents_in self.now) }
    {
        Company::of(self.alloc, self.scenario)
    }

    /// The place of an actor's bench among those at hand.
    pub(crate) fn place(&self, actor: u32) -> usize
        ensures { result ≡ place_of self.now.only actor }
    {
        match self.only {
            Some(_) => 0,
            None => actor as usize,
        }
    }

    /// The entries read, with their benches.
    pub fn into_replay(self) -> Replay
        ensures history { result.history ≡ self.entry.history }
        ensures benches { result.benches ≡ self.entry.benches }
    {
        let SoFar {
            alloc: _,
            scenario: _,
            held: _,
            only: _,
            ring: _,
            benches,
            calls: _,
            posted: _,
            history,
        } = self;
        Replay { history, benches }
    }

    /// Adds the entry of an event that a line tells of an actor at hand, whatever the actor says there, and tells whether it may
    /// come. Where not, all stays as it was. After want of memory what is at hand is of no use any more. The memory is of frames
    /// that were checked with this history's ring.
    pub fn take(
        &mut self,
        memory: &mut RingMemory,
        actor: u32,
        line: EventLine,
    ) -> Result<bool, Want>
        requires at_hand { IsSoFar self.old }
        requires own { is_at_hand self.old actor ≡ true }
        requires short { length self.old.history < 2 ^ 32 }
        ensures { IfOk result (λ comes. Takes (entry_next (world_in self.old) self.old.history actor (standing_event (world_in self.old) (event_from (world_in self.old) self.old.history line))) comes self.old self.new) }
    {
        if !self.is_running(actor) {
            return Ok(false);
        }
        let found = self.event(memory, line)?;
        let Some(event) = found else {
            return Ok(false);
        };
        let place = self.place(actor);
        if !self.benches[place].fits(&event) {
            return Ok(false);
        }
        self.enter(actor, event)?;
        Ok(true)
    }

    /// Adds the entry of an event that a running actor at hand can have, whatever it says there. After want of memory what is at
    /// hand is of no use any more.
    pub fn enter(&mut self, actor: u32, event: Event) -> Result<(), Want>
        requires at_hand { IsSoFar self.old }
        requires own { is_at_hand self.old actor ≡ true }
        requires short { length self.old.history < 2 ^ 32 }
        requires running { is_running (world_in self.old) self.old.history actor ≡ true }
        requires fits { (world_in self.old).fits actor (event_of event) ≡ true }
        requires taken { TakesWell (world_in self.old) (length self.old.history) (event_of event) }
        ensures { OnOk result (HasMore self.old self.new (entry_with self.old.history actor (event_of event) (says (world_in self.old) self.old.history actor (event_of event)))) }
    {
        let stamp = self.history.len() as u64;
        let place = self.place(actor);
        let bench = &mut self.benches[place];
        let (entry, posted) = act_at(self.alloc, &self.ring, bench, stamp, event)?;
        self.calls[actor as usize] += calls_at(&entry);
        self.posted.push(posted)?;
        self.history.push(entry)?;
        Ok(())
    }

    /// Adds the entry of a line, and tells whether it may come. Where not, what is at hand is of no use any more.
    pub(crate) fn add(&mut self, memory: &mut RingMemory, line: EntryLine) -> Result<bool, Want>
        requires at_hand { IsSoFar self.old }
        requires all { self.old.only ≡ None }
        requires short { length self.old.history < 2 ^ 32 }
        ensures { IfOk result (λ comes. Comes (entry_from (world_in self.old) self.old.history line) comes self.old self.new) }
    {
        let EntryLine {
            stamp,
            actor,
            event,
            kinds,
        } = line;
        let Some(actor) = actor else {
            return Ok(false);
        };
        if !self.is_next(stamp, actor) {
            return Ok(false);
        }
        self.add_event(memory, actor, event, kinds.as_slice())
    }

    /// Whether an actor's entry of this stamp is the next one, the actor being there and not halted.
    fn is_next(&self, stamp: u64, actor: u32) -> bool
        requires { IsSoFar self.now }
        ensures { result ≡ (nat_eq stamp (length self.now.history) && is_running (world_in self.now) self.now.history actor) }
    {
        stamp == self.history.len() as u64 && self.is_running(actor)
    }

    /// Whether an actor is there and isn't halted.
    fn is_running(&self, actor: u32) -> bool
        requires { IsSoFar self.now }
        ensures { result ≡ is_running (world_in self.now) self.now.history actor }
    {
        match self.calls.get(actor as usize) {
            Some(calls) => !fails(self.scenario, actor, *calls),
            None => false,
        }
    }

    /// Adds the entry of an event that a line tells of a running actor, and tells whether it may come with these kinds.
    fn add_event(
        &mut self,
        memory: &mut RingMemory,
        actor: u32,
        line: EventLine,
        kinds: &[Kind],
    ) -> Result<bool, Want>
        requires at_hand { IsSoFar self.old }
        requires own { is_at_hand self.old actor ≡ true }
        requires short { length self.old.history < 2 ^ 32 }
        requires running { is_running (world_in self.old) self.old.history actor ≡ true }
        ensures { IfOk result (λ comes. Comes (entry_of_event (world_in self.old) self.old.history actor kinds.now (standing_event (world_in self.old) (event_from (world_in self.old) self.old.history line))) comes self.old self.new) }
    {
        let found = self.event(memory, line)?;
        let Some(event) = found else {
            return Ok(false);
        };
        let place = self.place(actor);
        if !self.benches[place].fits(&event) {
            return Ok(false);
        }
        self.act(actor, event, kinds)
    }

    /// Adds the entry of an event that the actor can have, and tells whether it says bodies of these kinds there.
    fn act(&mut self, actor: u32, event: Event, kinds: &[Kind]) -> Result<bool, Want>
        requires at_hand { IsSoFar self.old }
        requires own { is_at_hand self.old actor ≡ true }
        requires short { length self.old.history < 2 ^ 32 }
        requires running { is_running (world_in self.old) self.old.history actor ≡ true }
        requires fits { (world_in self.old).fits actor (event_of event) ≡ true }
        requires taken { TakesWell (world_in self.old) (length self.old.history) (event_of event) }
        ensures { IfOk result (λ comes. Comes (entry_of_event (world_in self.old) self.old.history actor kinds.now (Some (event_of event))) comes self.old self.new) }
    {
        let stamp = self.history.len() as u64;
        let place = self.place(actor);
        let bench = &mut self.benches[place];
        let (entry, posted) = act_at(self.alloc, &self.ring, bench, stamp, event)?;
        if !are_kinds(kinds, entry.said.as_slice()) {
            return Ok(false);
        }
        self.calls[actor as usize] += calls_at(&entry);
        self.posted.push(posted)?;
        self.history.push(entry)?;
        Ok(true)
    }
}

/// How many bytes an identifier has, as its type says.
fn identifier_size(identifier: &[u8; 16]) -> usize
    ensures { length identifier.now ≡ 16 }
{
    identifier.len()
}

/// One bench by itself.
fn one_bench(alloc: Global, bench: Bench) -> Result<Vec<Bench>, Want>
    ensures { IfOk result (λ benches. benches.items ≡ bench ∷ []) }
{
    let mut benches = Vec::new(alloc);
    benches.push(bench)?;
    Ok(benches)
}

/// Whether these are the kinds of the bodies.
fn are_kinds(kinds: &[Kind], said: &[Body]) -> bool
    ensures { result ≡ are_kinds kinds.now said.now }
{
    if kinds.len() != said.len() {
        return false;
    }
    for (place, kind) in kinds.iter().enumerate() {
        if kind.number() != kind_of(&said[place]).number() {
            return false;
        }
    }
    true
}
