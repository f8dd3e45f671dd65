ghost use Rattle.std.specs.Prelude.{◌≡◌, ◌≤◌, ◌<◌, IfOk};
ghost use Rattle.scenario_file.specs.Actors.{actors_of, actor_name, actor_named};

use plain_lists::{Text, Want};
use quorum_sets::{MOST_CLIENTS, MOST_MASTERS};
use std::alloc::Global;

/// No scenario has more actors than this: masters, proxies and screens.
pub const MOST_ACTORS: u32 = MOST_MASTERS + MOST_CLIENTS;

/// How many actors of each kind there are. They are numbered in this order.
#[derive(Clone, Copy, Debug)]
pub struct Cast {
    pub masters: u32,
    pub proxies: u32,
    pub screens: u32,
}

impl Cast {
    /// How many actors there are.
    pub fn actors(self) -> u32
        requires { actors_of self ≤ MOST_ACTORS }
        ensures { result ≡ actors_of self }
    {
        self.masters + self.proxies + self.screens
    }

    /// The name of an actor, as `m0`, `p0` or `s0`.
    #[tactic(auto, unfolding(crate::specs::Actors::actor_name))]
    pub fn name(self, alloc: Global, actor: u32) -> Result<Text, Want>
        requires { actors_of self ≤ MOST_ACTORS }
        ensures { IfOk result (λ name. name ≡ actor_name self actor) }
    {
        let mut name = String::new(alloc);
        let first_screen = self.masters + self.proxies;
        if actor < self.masters {
            write!(name, "m{actor}")?;
        } else if actor < first_screen {
            let proxy = actor - self.masters;
            write!(name, "p{proxy}")?;
        } else {
            let screen = actor - first_screen;
            write!(name, "s{screen}")?;
        }
        Text::from_str(alloc, name.as_str())
    }

    /// The actor that has a name. None exactly where there is none.
    #[tactic(auto, unfolding(crate::specs::Actors::actor_named))]
    pub fn named(self, alloc: Global, name: &str) -> Result<Option<u32>, Want>
        requires { actors_of self ≤ MOST_ACTORS }
        ensures { IfOk result (λ actor. actor ≡ actor_named self name.now) }
    {
        for actor in 0..self.actors() {
            if self.name(alloc, actor)?.as_str() == name {
                return Ok(Some(actor));
            }
        }
        Ok(None)
    }
}
