//! What stands behind an actor's lock.
ghost use Rattle.std.specs.Prelude.{◌≡◌, ◌⊎◌, ◌<◌, ◌≤◌, ◌+◌, ◌∷◌, [], true, false, IsTrue, IsErr, OnOk, OnErr, IfOk, IfSome};
ghost use Rattle.std.specs.List.{list_all, slice_index_or};
ghost use Rattle.message_types.specs.Spelling.{has_spelling};
ghost use Rattle.scenario_file.specs.Reading.{contents};
ghost use Rattle.scenario_file.specs.Valid.{IsScenario};
ghost use Rattle.history_rules.specs.Setup.{stands};
ghost use Rattle.world_rules.specs.Scenarios.{setup_of, actors_in};
ghost use Rattle.script_laws.specs.Accepted.{is_there};
ghost use Rattle.world_history.specs.KeptState.{halted_in, first_state};
ghost use Rattle.station_turns.specs.Pace.{fit_inputs, turns_made, inputs_used};
ghost use Rattle.station_turns.specs.Turns.{Stationed, IsAlive, Turns};
ghost use Rattle.station_turns.specs.Naming.{IsOf, IsOwn};

use crate::held::{Held, Turned};
use crate::live::Live;
use crate::naming::Naming;
use crate::turning::turn;
use plain_lists::Want;
use play_words::Input;
use scenario_file::Scenario;
use stamps::{StampSeat, Stamps};
use std::alloc::Global;
use std::marker::{Model, PhantomData};
use world_history::Kept;

/// An actor with its keeper, its seat and the inputs that it is given, in the run of this name. After want of memory it is given
/// up.
pub struct Station<N: Naming> {
    live: Live,
    given_up: bool,
    of: PhantomData<N>,
}

// Taken apart here once, so that no crate above proves it again.
impl<N: Naming> Drop for Station<N> {
    fn drop(self) {
        let Station {
            live: _,
            given_up: _,
            of: _,
        } = self;
    }
}

impl<N: Naming> Model for Station<N> {
    ghost use Rattle.std.specs.Prelude.{◌≡◌, false};
    ghost use Rattle.std.specs.Coded.{codes};
    ghost use Rattle.interlocks.specs.Code.{formula_code};
    ghost use Rattle.station_turns.specs.Turns.{Stationed, stationed, IsAlive};
    ghost use Rattle.station_turns.specs.Naming.{IsOf};

    ghost Value = { Stationed };

    ghost coded = { Prim.hlevel (codes, formula_code) };

    ghost view = { λ s. record {
      kept = s.live.kept;
      seat = s.live.seat;
      inputs = s.live.inputs.items;
      turns = s.live.turns;
      given_up = s.given_up;
    } };

    ghost invariant = { λ s. s.given_up ≡ false → IsAlive (stationed s.live) s.live.used s.live.count × IsOf N.name (stationed s.live) };
}

impl<N: Naming> Station<N> {
    /// An actor of the run before its first turn. Its seat is the one that was split off after the seats of the actors before
    /// it, so its number is one more than the actor's. After `Want` the seat is given up.
    pub fn make(
        alloc: Global,
        scenario: &Scenario,
        actor: u32,
        seat: StampSeat,
        inputs: Vec<Input>,
        turns: u64,
    ) -> Result<Station<N>, Want>
        requires valid { IsScenario (contents scenario.now) }
        requires there { actor < actors_in (contents scenario.now) }
        requires scenario { contents scenario.now ≡ N.name.scenario }
        requires number { (seat.number ≡ actor + 1) × (seat.numbers ≡ seat.number ∷ []) × (seat.drawn ≡ []) }
        requires source { seat.of ≡ N.name.source }
        requires inputs { inputs.items ≡ slice_index_or N.name.inputs actor [] }
        requires fit { fit_inputs (contents scenario.now) actor inputs.items ≡ true }
        requires turns { (turns ≡ N.name.turns) × (turns ≤ 4000) }
        ensures { IfOk result (λ s. s ≡ record { kept = first_state (contents scenario.now) actor; seat = seat; inputs = inputs.items; turns = turns; given_up = false }) }
    {
        let kept = Kept::make(alloc, scenario, actor)?;
        Ok(Station {
            live: Live {
                alloc,
                kept,
                seat,
                inputs,
                used: 0,
                turns,
                count: 0,
            },
            given_up: false,
            of: PhantomData,
        })
    }

    /// Whose station it is. It takes no memory.
    pub fn actor(&self) -> u32
        ensures whose { result ≡ self.now.kept.bench.actor }
        ensures there { self.now.given_up ≡ false → result < actors_in N.name.scenario }
    {
        self.live.kept.bench().actor()
    }

    /// How many turns it has made. It takes no memory.
    pub fn count(&self) -> u64
        ensures made { self.now.given_up ≡ false → result ≡ turns_made self.now.kept.bench.list }
        ensures most { self.now.given_up ≡ false → result ≤ N.name.turns }
    {
        self.live.count
    }

    /// Whether a call of the actor's keeper failed: then it makes no more turns. It takes no memory.
    pub fn halted(&self) -> bool
        ensures { self.now.given_up ≡ false → result ≡ halted_in self.now.kept.bench }
    {
        self.live.kept.halted()
    }

    /// Whether memory ran out under it: then it makes no more turns.
    pub fn is_given_up(&self) -> bool
        ensures { result ≡ self.now.given_up }
    {
        self.given_up
    }

    /// One turn: it draws, adds the skips and the one entry that are due for the inputs left, the held frame and the stamps
    /// drawn, and gives what is to be posted. After `Want` the station is given up: each later turn answers `Want`.
    pub fn turn(
        &mut self,
        scenario: &Scenario,
        stamps: &Stamps,
        held: Option<Held>,
    ) -> Result<Turned, Want>
        requires scenario { contents scenario.now ≡ N.name.scenario }
        requires of { stamps.now ≡ N.name.source }
        requires running { self.old.given_up ≡ false → halted_in self.old.kept.bench ≡ false }
        requires left { self.old.given_up ≡ false → turns_made self.old.kept.bench.list < N.name.turns }
        requires stands { IfSome held (λ h. stands (setup_of N.name.scenario) h.frame ≡ true) }
        ensures turns { IfOk result (λ t. Turns self.old held t self.new) }
        ensures spelled { IfOk result (λ t. list_all has_spelling t.frames.items ≡ true) }
        ensures stand { IfOk result (λ t. t.cried ≡ false → list_all (stands (setup_of N.name.scenario)) t.frames.items ≡ true) }
        ensures there { IfOk result (λ t. list_all (is_there N.name.scenario) t.to ≡ true) }
        ensures whose { OnOk result (IsOwn N.name self.old.kept.bench.actor self.old × IsOwn N.name self.old.kept.bench.actor self.new) }
        ensures made { OnOk result ((halted_in self.new.kept.bench ≡ true) ⊎ (turns_made self.new.kept.bench.list ≡ turns_made self.old.kept.bench.list + 1)) }
        ensures works { OnOk result (self.new.given_up ≡ false) }
        ensures refused { OnErr result (self.new.given_up ≡ true) }
        ensures spent { self.old.given_up ≡ true → IsErr result }
    {
        if self.given_up {
            return Err(Want);
        }
        self.given_up = true;
        let turned = turn(&mut self.live, scenario, stamps, held)?;
        self.given_up = false;
        Ok(turned)
    }

    /// The actor with its keeper, and its seat. It takes no memory.
    pub fn parted(self) -> (Kept, StampSeat)
        ensures parts { (result.0 ≡ self.kept) × (result.1 ≡ self.seat) }
        ensures alive { self.given_up ≡ false → IsAlive self (inputs_used self.kept.bench.list) (turns_made self.kept.bench.list) }
        ensures run { self.given_up ≡ false → IsOf N.name self }
    {
        let Station {
            live,
            given_up: _,
            of: _,
        } = self;
        live.parted()
    }
}
