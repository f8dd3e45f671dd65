//! The station of one actor, as it stands behind the lock that the actor's hands share.
ghost use Rattle.std.specs.Prelude.{◌≡◌, ◌⊎◌, ◌<◌, ◌≤◌, ◌+◌, true, false, IsErr, OnOk, OnErr, IfOk, IfSome};
ghost use Rattle.std.specs.List.{list_all};
ghost use Rattle.message_types.specs.Spelling.{has_spelling};
ghost use Rattle.scenario_file.specs.Reading.{contents};
ghost use Rattle.history_rules.specs.Setup.{stands};
ghost use Rattle.world_rules.specs.Scenarios.{setup_of, actors_in};
ghost use Rattle.script_laws.specs.Accepted.{is_there};
ghost use Rattle.world_history.specs.KeptState.{halted_in};
ghost use Rattle.station_turns.specs.Pace.{turns_made};
ghost use Rattle.station_turns.specs.Turns.{Turns};
ghost use Rattle.station_turns.specs.Naming.{IsStationOf, IsOwn};

use crate::held::{Held, Turned};
use crate::naming::{Naming, Owner};
use crate::station::Station;
use plain_lists::Want;
use scenario_file::Scenario;
use stamps::Stamps;
use std::marker::{Model, PhantomData};

/// The station of the one actor `A`, in the run of this name. It can't become another's: whoever takes it from behind a lock
/// knows whose it is.
pub struct OwnStation<N: Naming, A: Owner> {
    station: Station<N>,
    of: PhantomData<A>,
}

// Taken apart here once, so that no crate above proves it again.
impl<N: Naming, A: Owner> Drop for OwnStation<N, A> {
    fn drop(self) {
        let OwnStation { station: _, of: _ } = self;
    }
}

impl<N: Naming, A: Owner> Model for OwnStation<N, A> {
    ghost use Rattle.std.specs.Coded.{codes};
    ghost use Rattle.interlocks.specs.Code.{formula_code};
    ghost use Rattle.station_turns.specs.Turns.{Stationed};
    ghost use Rattle.station_turns.specs.Naming.{IsStationOf};

    ghost Value = { Stationed };

    ghost coded = { Prim.hlevel (codes, formula_code) };

    ghost view = { λ s. s.station };

    ghost invariant = { λ s. IsStationOf A.actor s.station };
}

impl<N: Naming, A: Owner> OwnStation<N, A> {
    /// The station, which is that of this actor.
    pub fn new(station: Station<N>) -> OwnStation<N, A>
        requires whose { IsStationOf A.actor station }
        ensures { result ≡ station }
    {
        OwnStation {
            station,
            of: PhantomData,
        }
    }

    /// How many turns it has made. It takes no memory.
    pub fn count(&self) -> u64
        ensures made { self.now.given_up ≡ false → result ≡ turns_made self.now.kept.bench.list }
        ensures most { self.now.given_up ≡ false → result ≤ N.name.turns }
    {
        self.station.count()
    }

    /// Whether a call of the actor's keeper failed: then it makes no more turns. It takes no memory.
    pub fn halted(&self) -> bool
        ensures { self.now.given_up ≡ false → result ≡ halted_in self.now.kept.bench }
    {
        self.station.halted()
    }

    /// Whether memory ran out under it: then it makes no more turns.
    pub fn is_given_up(&self) -> bool
        ensures { result ≡ self.now.given_up }
    {
        self.station.is_given_up()
    }

    /// One turn, as `Station::turn` makes it, of this actor's station, which stays this actor's.
    pub fn turn(
        &mut self,
        scenario: &Scenario,
        stamps: &Stamps,
        held: Option<Held>,
    ) -> Result<Turned, Want>
        requires scenario { contents scenario.now ≡ N.name.scenario }
        requires of { stamps.now ≡ N.name.source }
        requires running { self.old.given_up ≡ false → halted_in self.old.kept.bench ≡ false }
        requires left { self.old.given_up ≡ false → turns_made self.old.kept.bench.list < N.name.turns }
        requires stands { IfSome held (λ h. stands (setup_of N.name.scenario) h.frame ≡ true) }
        ensures turns { IfOk result (λ t. Turns self.old held t self.new) }
        ensures whose { OnOk result (IsOwn N.name A.actor self.old × IsOwn N.name A.actor self.new) }
        ensures spelled { IfOk result (λ t. list_all has_spelling t.frames.items ≡ true) }
        ensures stand { IfOk result (λ t. t.cried ≡ false → list_all (stands (setup_of N.name.scenario)) t.frames.items ≡ true) }
        ensures there { IfOk result (λ t. list_all (is_there N.name.scenario) t.to ≡ true) }
        ensures made { OnOk result ((halted_in self.new.kept.bench ≡ true) ⊎ (turns_made self.new.kept.bench.list ≡ turns_made self.old.kept.bench.list + 1)) }
        ensures works { OnOk result (self.new.given_up ≡ false) }
        ensures refused { OnErr result (self.new.given_up ≡ true) }
        ensures spent { self.old.given_up ≡ true → IsErr result }
    {
        self.station.turn(scenario, stamps, held)
    }

    /// The station, once it is out from behind its lock: still that of this actor. It takes no memory.
    pub fn into_station(self) -> Station<N>
        ensures same { result ≡ self }
        ensures whose { IsStationOf A.actor result }
    {
        let OwnStation { station, of: _ } = self;
        station
    }
}
