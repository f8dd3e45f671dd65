ghost use Rattle.std.specs.Prelude.{◌≡◌, ◌≤◌, option_copied};
ghost use Rattle.scenario_file.specs.Actors.{actors_of};
ghost use Rattle.scenario_file.specs.Reading.{contents};
ghost use Rattle.scenario_file.specs.Valid.{IsScenario};
ghost use Rattle.script_grammar.specs.Faults.{Answers};
ghost use Rattle.script_grammar.specs.Names.{who_of, device_of, is_intruded, is_proxy, is_screen, actor_in, intruded_in, correct_in, proxy_in, screen_in};

use crate::fault::LineRefusal;
use crate::names::is_name;
use plain_lists::Want;
use point_table::DeviceSizes;
use quorum_sets::VoterSet;
use scenario_file::{Cast, Scenario};
use std::alloc::Global;
use std::marker::Model;

/// Who is there in a scenario's plays.
#[derive(Drop)]
pub struct Company<'a> {
    alloc: Global,
    cast: Cast,
    intruded: &'a VoterSet,
    devices: &'a [DeviceSizes],
}

impl<'a> Model for Company<'a> {
    ghost use Rattle.std.specs.Prelude.{◌≤◌};
    ghost use Rattle.scenario_file.specs.Actors.{actors_of};
    ghost use Rattle.script_grammar.specs.Names.{Who};

    ghost Value = { Who };

    ghost view = { λ c. record { cast = c.cast; intruded = c.intruded.now; devices = c.devices.now } };

    ghost invariant = { λ c. actors_of c.cast ≤ 26 };
}

impl<'a> Company<'a> {
    pub fn of(alloc: Global, scenario: &'a Scenario) -> Company<'a>
        requires { IsScenario (contents scenario.now) }
        ensures { result ≡ who_of (contents scenario.now) }
    {
        Company {
            alloc,
            cast: scenario.cast(),
            intruded: &scenario.intruded,
            devices: scenario.plant.devices.as_slice(),
        }
    }

    pub fn alloc(&self) -> Global {
        self.alloc
    }

    /// How many actors of each kind there are.
    pub fn cast(&self) -> Cast
        ensures value { result ≡ self.now.cast }
        ensures few { actors_of result ≤ 26 }
    {
        self.cast
    }

    /// The sizes of the device behind a proxy. None where the actor is no proxy.
    #[tactic(auto, unfolding(crate::specs::Names::device_of))]
    pub fn device(&self, actor: u32) -> Option<&DeviceSizes>
        ensures { option_copied result ≡ device_of self.now actor }
    {
        if self.is_proxy(actor) {
            self.devices.get((actor - self.cast.masters) as usize)
        } else {
            None
        }
    }

    fn is_intruded(&self, actor: u32) -> bool
        ensures { result ≡ is_intruded self.now actor }
    {
        self.intruded.has(actor)
    }

    fn is_proxy(&self, actor: u32) -> bool
        ensures { result ≡ is_proxy self.now actor }
    {
        self.cast.masters <= actor && actor < self.cast.masters + self.cast.proxies
    }

    fn is_screen(&self, actor: u32) -> bool
        ensures { result ≡ is_screen self.now actor }
    {
        self.cast.masters + self.cast.proxies <= actor
    }

    /// The actor of a name.
    #[tactic(auto, unfolding(crate::specs::Names::actor_in))]
    pub fn actor(&self, name: &str) -> Result<u32, LineRefusal>
        ensures { Answers result (actor_in self.now.cast name.now) }
    {
        if !is_name(name.as_bytes()) {
            return Err(LineRefusal::BadLine);
        }
        match self.cast.named(self.alloc, name)? {
            Some(actor) => Ok(actor),
            None => Err(LineRefusal::NoActor),
        }
    }

    /// The intruded master of a name.
    #[tactic(auto, unfolding(crate::specs::Names::intruded_in))]
    pub fn intruded(&self, name: &str) -> Result<u32, LineRefusal>
        ensures { Answers result (intruded_in self.now name.now) }
    {
        let actor = self.actor(name)?;
        if self.is_intruded(actor) {
            Ok(actor)
        } else {
            Err(LineRefusal::NoActor)
        }
    }

    /// The correct actor of a name.
    #[tactic(auto, unfolding(crate::specs::Names::correct_in))]
    pub fn correct(&self, name: &str) -> Result<u32, LineRefusal>
        ensures { Answers result (correct_in self.now name.now) }
    {
        let actor = self.actor(name)?;
        if self.is_intruded(actor) {
            Err(LineRefusal::NoActor)
        } else {
            Ok(actor)
        }
    }

    /// The proxy of a name.
    #[tactic(auto, unfolding(crate::specs::Names::proxy_in))]
    pub fn proxy(&self, name: &str) -> Result<u32, LineRefusal>
        ensures { Answers result (proxy_in self.now name.now) }
    {
        let actor = self.actor(name)?;
        if self.is_proxy(actor) {
            Ok(actor)
        } else {
            Err(LineRefusal::NoActor)
        }
    }

    /// The screen of a name.
    #[tactic(auto, unfolding(crate::specs::Names::screen_in))]
    pub fn screen(&self, name: &str) -> Result<u32, LineRefusal>
        ensures { Answers result (screen_in self.now name.now) }
    {
        let actor = self.actor(name)?;
        if self.is_screen(actor) {
            Ok(actor)
        } else {
            Err(LineRefusal::NoActor)
        }
    }
}
