ghost use Rattle.std.specs.Prelude.{◌≡◌, ◌≤◌};
ghost use Rattle.scenario_file.specs.Reading.{contents};
ghost use Rattle.scenario_file.specs.Valid.{IsScenario};
ghost use Rattle.world_rules.specs.Scenarios.{actors_in};

use scenario_file::Scenario;
use std::alloc::Global;

/// How a run goes.
#[derive(Drop)]
pub struct Course<'a> {
    pub alloc: Global,
    pub scenario: &'a Scenario,
    /// How many hands a master has; each other actor has one.
    pub hands: u32,
    /// The most turns that an actor makes.
    pub turns: u64,
}

impl<'a> Course<'a> {
    /// How many actors there are.
    pub(crate) fn actors(&self) -> u32
        requires { IsScenario (contents self.now.scenario.now) }
        ensures actors { result ≡ actors_in (contents self.now.scenario.now) }
        ensures few { result ≤ 26 }
    {
        self.scenario.cast().actors()
    }
}
