//! One actor of a scenario with all that it did.
ghost use Rattle.std.specs.Prelude.{◌≡◌, ◌↔◌, ◌≤◌, ◌<◌, ◌+◌, ◌^◌, ◌++◌, ◌∷◌, [], length, map, true, false, nat_lt, Some, OnOk, OnErr, IfOk, IfSome, IsSome, IsErr};
ghost use Rattle.std.specs.List.{list_all};
ghost use Rattle.scenario_file.specs.Reading.{contents, with_held};
ghost use Rattle.scenario_file.specs.Valid.{IsScenario};
ghost use Rattle.history_rules.specs.Setup.{stands};
ghost use Rattle.history_rules.specs.Legal.{TakesWell};
ghost use Rattle.world_entries.specs.Entries.{event_of, entry_of};
ghost use Rattle.world_rules.specs.Scenarios.{group_in, actors_in, fits_in, HasKey};
ghost use Rattle.world_history.specs.State.{BenchState, setup_in, with_entry, frames_said};

use crate::own_keys::{is_of_ring, own_key};
use crate::seat::Seat;
use message_types::Frame;
use plain_lists::{Copied, Want};
use scenario_file::{HeldKeys, Scenario};
use std::alloc::Global;
use std::marker::Model;
use world_entries::{Entry, Event};

/// One actor of a scenario with all that it did. Its state is the replay of its list.
pub struct Bench {
    pub(crate) seat: Seat,
    pub(crate) is_spent: bool,
}

// Taken apart here once, so that no crate above proves it again.
impl Drop for Bench {
    fn drop(self) {
        let Bench {
            seat: _,
            is_spent: _,
        } = self;
    }
}

impl Model for Bench {
    ghost use Rattle.std.specs.Prelude.{◌≡◌, map, false};
    ghost use Rattle.std.specs.Coded.{codes};
    ghost use Rattle.interlocks.specs.Code.{formula_code};
    ghost use Rattle.scenario_file.specs.Reading.{contents, with_held};
    ghost use Rattle.world_entries.specs.Entries.{entry_of};
    ghost use Rattle.world_history.specs.State.{BenchState};
    ghost use Rattle.world_history.specs.Seats.{IsSeated};

    ghost Value = { BenchState };

    ghost coded = { Prim.hlevel (codes, formula_code) };

    ghost view = { λ bench. record {
      world = with_held (contents bench.seat.scenario) bench.seat.held;
      actor = bench.seat.actor;
      list = map entry_of bench.seat.list.items;
      signed = bench.seat.signed;
      is_spent = bench.is_spent;
    } };

    ghost invariant = { λ bench. bench.is_spent ≡ false → IsSeated bench.seat };
}

impl Bench {
    /// An actor of a scenario before its first event.
    pub fn make(alloc: Global, scenario: &Scenario, actor: u32) -> Result<Bench, Want>
        requires valid { IsScenario (contents scenario.now) }
        requires there { actor < (group_in (contents scenario.now)).n + (group_in (contents scenario.now)).clients }
        ensures { IfOk result (λ bench. bench ≡ record { world = contents scenario.now; actor = actor; list = []; signed = 0; is_spent = false }) }
    {
        Ok(Bench {
            seat: Seat::begin(alloc, scenario, actor)?,
            is_spent: false,
        })
    }

    /// An actor of a scenario before its first event, by its own key alone: the scenario's seed isn't asked for. None where that
    /// key isn't the one whose public key the ring has of the actor.
    pub fn hold(
        alloc: Global,
        scenario: &Scenario,
        held: &HeldKeys,
        actor: u32,
    ) -> Result<Option<Bench>, Want>
        requires valid { IsScenario (contents scenario.now) }
        requires there { actor < actors_in (contents scenario.now) }
        requires ring { length held.now.ring ≡ actors_in (contents scenario.now) }
        ensures first { IfOk result (λ found. IfSome found (λ bench. bench
            ≡ record { world = with_held (contents scenario.now) (Some held.now); actor = actor; list = []; signed = 0; is_spent = false })) }
        ensures own { IfOk result (λ found. IsSome found ↔ HasKey (with_held (contents scenario.now) (Some held.now)) actor) }
    {
        let heights = scenario.heights.as_slice();
        let key = own_key(alloc, &held.seed, &held.identifier, heights)?;
        let is_own = is_of_ring(held.ring.as_slice(), actor, &key);
        if !is_own {
            return Ok(None);
        }
        let copy = held.copy()?;
        let seat = Seat::with_key(alloc, scenario, Some(copy), actor, key)?;
        Ok(Some(Bench {
            seat,
            is_spent: false,
        }))
    }

    /// The actor's number.
    pub fn actor(&self) -> u32
        ensures { result ≡ self.now.actor }
    {
        self.seat.actor
    }

    /// All that the actor did, in order.
    pub fn list(&self) -> &[Entry]
        ensures { map entry_of result.now ≡ self.now.list }
    {
        self.seat.list.as_slice()
    }

    /// Adds the entry of an event, and gives the frames of what the actor says there: each group of bodies is signed with the
    /// next leaf of the actor's key. After want of memory the list is as it was, no frame was given away, and the bench is
    /// spent: it answers `Want` from then on.
    pub fn act(&mut self, stamp: u64, event: Event) -> Result<Vec<Frame>, Want>
        requires fits { (setup_in self.old).fits self.old.actor (event_of event) ≡ true }
        requires later { list_all (λ e. nat_lt e.stamp stamp) self.old.list ≡ true }
        requires taken { TakesWell (setup_in self.old) stamp (event_of event) }
        requires short { length self.old.list < 2 ^ 32 }
        ensures entry { OnOk result (self.new ≡ with_entry self.old stamp (event_of event)) }
        ensures frames { IfOk result (λ frames. frames.items ≡ frames_said self.old stamp (event_of event)) }
        ensures stand { IfOk result (λ frames. list_all (stands (setup_in self.old)) frames.items ≡ true) }
        ensures refused { OnErr result (self.new ≡ record self.old { is_spent = true }) }
        ensures spent { self.old.is_spent ≡ true → IsErr result }
    {
        if self.is_spent {
            return Err(Want);
        }
        self.is_spent = true;
        let frames = self.seat.add(stamp, event)?;
        self.is_spent = false;
        Ok(frames)
    }
}
