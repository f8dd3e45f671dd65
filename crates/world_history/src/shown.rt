//! What a bench shows of its actor. None of it takes memory, and nothing changes. After want of memory nothing more is said
//! of what an actor made of its list.
ghost use Rattle.std.specs.Prelude.{◌≡◌, false};
ghost use Rattle.std.specs.Option.{option_copied};
ghost use Rattle.history_rules.specs.Setup.{Setup};
ghost use Rattle.world_entries.specs.Entries.{event_of};
ghost use Rattle.world_history.specs.State.{setup_in, executions_shown, view_shown, certified_shown, writes_shown, board_shown, leaves_left};

use crate::bench::Bench;
use crate::fitting::fits_actor;
use crate::role::Role;
use field_proxy::Write;
use message_types::{Notice, Update};
use world_entries::Event;

impl Bench {
    /// Whether the event is one of the actor's role.
    pub fn fits(&self, event: &Event) -> bool
        ensures { result ≡ (setup_in self.now).fits self.now.actor (event_of event.now) }
    {
        fits_actor(&self.seat.scenario, self.seat.actor, event)
    }

    /// The updates that a correct master has executed, in order; of other actors none.
    pub fn executions(&self) -> &[Update]
        ensures { self.now.is_spent ≡ false → result.now ≡ executions_shown self.now }
    {
        if let Role::Master(node) = &self.seat.role {
            node.executions()
        } else {
            &[]
        }
    }

    /// The view that a correct master is in; of other actors 0.
    pub fn view(&self) -> u64
        ensures { self.now.is_spent ≡ false → result ≡ view_shown self.now }
    {
        if let Role::Master(node) = &self.seat.role {
            node.view()
        } else {
            0
        }
    }

    /// The update that is certified at a correct master as request `k` of master `j`; at other actors none.
    pub fn certified(&self, j: u32, k: u64) -> Option<&Update>
        ensures { self.now.is_spent ≡ false → option_copied result ≡ certified_shown self.now j k }
    {
        if let Role::Master(node) = &self.seat.role {
            node.certified(j, k)
        } else {
            None
        }
    }

    /// The writes that a proxy made at its device, in order; of other actors none.
    pub fn writes(&self) -> &[Write]
        ensures { self.now.is_spent ≡ false → result.now ≡ writes_shown self.now }
    {
        if let Role::Proxy(proxy) = &self.seat.role {
            proxy.writes()
        } else {
            &[]
        }
    }

    /// The notices that a screen shows, the oldest first; of other actors none.
    pub fn board(&self) -> &[Notice]
        ensures { self.now.is_spent ≡ false → result.now ≡ board_shown self.now }
    {
        if let Role::Screen(screen) = &self.seat.role {
            screen.board()
        } else {
            &[]
        }
    }

    /// How many leaves the actor's key has left.
    pub fn left(&self) -> u64
        ensures { self.now.is_spent ≡ false → result ≡ leaves_left self.now }
    {
        self.seat.key.left()
    }
}
