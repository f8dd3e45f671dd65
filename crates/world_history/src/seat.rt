//! An actor with its key, its role and its list, whose facts are told from outside.
ghost use Rattle.std.specs.Prelude.{◌≡◌, ◌+◌, ◌≤◌, ◌<◌, ◌^◌, ◌++◌, ◌∷◌, [], length, true, nat_lt, OnOk, OnErr, IfOk};
ghost use Rattle.std.specs.List.{list_all};
ghost use Rattle.history_rules.specs.Leaves.{room_of};
ghost use Rattle.history_rules.specs.Setup.{stands};
ghost use Rattle.history_rules.specs.Legal.{TakesWell};
ghost use Rattle.world_entries.specs.Entries.{event_of};
ghost use Rattle.hash_signatures.specs.State.{key_use};
ghost use Rattle.scenario_file.specs.Reading.{contents, with_held};
ghost use Rattle.scenario_file.specs.Valid.{IsScenario};
ghost use Rattle.world_rules.specs.Scenarios.{setup_of, group_in, key_in, HasKey};
ghost use Rattle.bench_rules.specs.Lists.{frames_after};
ghost use Rattle.world_history.specs.Seats.{IsSeated, GoesByTheSame, world_in, list_in, entry_of_seat};

use crate::frames::{sign_all, standing};
use crate::role::{Role, answer, close};
use crate::start::begin;
use actor_keys::actor_key;
use checked_frames::Checked;
use client_roles::laws::event_carries_well;
use hash_signatures::KeyState;
use history_rules::MOST_SHARING;
use message_types::Frame;
use plain_lists::{Copied, Items, Want};
use scenario_file::{HeldKeys, Scenario};
use std::alloc::Global;
use world_entries::{Entry, Event};

/// All that a bench keeps.
#[derive(Drop)]
pub struct Seat {
    pub alloc: Global,
    pub scenario: Scenario,
    /// The keys that are held, where the actor's key isn't made from the scenario's seed.
    pub held: Option<HeldKeys>,
    pub actor: u32,
    pub key: KeyState,
    pub role: Role,
    pub list: Vec<Entry>,
    /// The frames of each entry, shared with all who take them.
    pub frames: Vec<Items<Checked>>,
    /// How many words an intruded master signed.
    pub signed: u64,
}

/// How many bodies so many leaves can sign.
fn room_for(shared: bool, leaves: u64) -> u64
    requires { leaves ≤ 2 ^ 30 }
    ensures { result ≡ room_of shared leaves }
{
    if shared {
        MOST_SHARING as u64 * leaves
    } else {
        leaves
    }
}

impl Seat {
    /// An actor of a scenario before its first event.
    pub(crate) fn begin(alloc: Global, scenario: &Scenario, actor: u32) -> Result<Seat, Want>
        requires valid { IsScenario (contents scenario.now) }
        requires there { actor < (group_in (contents scenario.now)).n + (group_in (contents scenario.now)).clients }
        ensures seated { IfOk result (λ seat. IsSeated seat) }
        ensures world { IfOk result (λ seat. world_in seat ≡ contents scenario.now) }
        ensures actor { IfOk result (λ seat. seat.actor ≡ actor) }
        ensures none { IfOk result (λ seat. list_in seat ≡ []) }
        ensures unsigned { IfOk result (λ seat. seat.signed ≡ 0) }
    {
        let key = actor_key(alloc, &scenario.seed, scenario.heights.as_slice(), actor)?;
        Seat::with_key(alloc, scenario, None, actor, key)
    }

    /// The same by the actor's own key, which signed nothing yet.
    pub(crate) fn with_key(
        alloc: Global,
        scenario: &Scenario,
        held: Option<HeldKeys>,
        actor: u32,
        key: KeyState,
    ) -> Result<Seat, Want>
        requires valid { IsScenario (contents scenario.now) }
        requires known { IsScenario (with_held (contents scenario.now) held) }
        requires there { actor < (group_in (contents scenario.now)).n + (group_in (contents scenario.now)).clients }
        requires own { HasKey (with_held (contents scenario.now) held) actor }
        requires key { key ≡ key_use (key_in (with_held (contents scenario.now) held) actor) 0 }
        ensures seated { IfOk result (λ seat. IsSeated seat) }
        ensures world { IfOk result (λ seat. world_in seat ≡ with_held (contents scenario.now) held) }
        ensures actor { IfOk result (λ seat. seat.actor ≡ actor) }
        ensures none { IfOk result (λ seat. list_in seat ≡ []) }
        ensures unsigned { IfOk result (λ seat. seat.signed ≡ 0) }
    {
        let copy = scenario.copy()?;
        let leaves = key.left();
        Ok(Seat {
            alloc,
            scenario: copy,
            held,
            actor,
            key,
            role: begin(alloc, scenario, actor, leaves)?,
            list: Vec::new(alloc),
            frames: Vec::new(alloc),
            signed: 0,
        })
    }

    /// Adds the entry of an event, and gives the frames of what is said there. After want of memory the list is as it was, no
    /// frame was given away, and the rest is of no use any more.
    pub(crate) fn add(&mut self, stamp: u64, event: Event) -> Result<Vec<Frame>, Want>
        requires seated { IsSeated self.old }
        requires fits { (setup_of (world_in self.old)).fits self.old.actor (event_of event) ≡ true }
        requires later { list_all (λ e. nat_lt e.stamp stamp) (list_in self.old) ≡ true }
        requires taken { TakesWell (setup_of (world_in self.old)) stamp (event_of event) }
        requires short { length (list_in self.old) < 2 ^ 32 }
        ensures seated { OnOk result (IsSeated self.new) }
        ensures list { OnOk result (list_in self.new ≡ list_in self.old ++ entry_of_seat self.old stamp (event_of event) ∷ []) }
        ensures frames { IfOk result (λ frames. frames.items
            ≡ frames_after (setup_of (world_in self.old)) self.old.actor (list_in self.old) (entry_of_seat self.old stamp (event_of event))) }
        ensures stand { IfOk result (λ frames. list_all (stands (setup_of (world_in self.old))) frames.items ≡ true) }
        ensures same { GoesByTheSame self.old self.new }
        ensures refused { OnErr result (list_in self.new ≡ list_in self.old) }
    {
        event_carries_well(&event);
        let shared = self.scenario.frames == 2;
        let room = room_for(shared, self.key.left());
        let bodies = answer(self.alloc, &mut self.role, &event, room)?;
        let frames = sign_all(self.alloc, &mut self.key, shared, self.actor, &bodies)?;
        close(&mut self.role, &event, &frames)?;
        let checked = standing(self.alloc, &frames)?;
        self.frames.push(checked)?;
        self.list.push(Entry {
            stamp,
            actor: self.actor,
            event,
            said: Items::from_vec(self.alloc, bodies),
        })?;
        Ok(frames)
    }
}
