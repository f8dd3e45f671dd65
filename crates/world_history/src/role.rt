//! What an actor is, and how it goes through an entry: it answers the event, its words are signed, and it is handed its frames.
ghost use Rattle.std.specs.Prelude.{◌≡◌, ◌∷◌, ◌++◌, [], ℕ, List, true, OnOk, IfOk};
ghost use Rattle.scenario_file.specs.Reading.{Contents};
ghost use Rattle.history_rules.specs.Events.{Entry as HistoryEntry};
ghost use Rattle.history_rules.specs.Setup.{room, is_correct};
ghost use Rattle.world_rules.specs.Scenarios.{setup_of};
ghost use Rattle.world_entries.specs.Entries.{event_of};
ghost use Rattle.bench_rules.specs.Lists.{frames_after};
ghost use Rattle.world_history.specs.Roles.{Comes, IsRole, IsReady, CanAnswer};

use crate::at_intruded::overhear;
use crate::at_master::{answer_at_master, hand};
use client_roles::{answer_at_proxy, answer_at_screen};
use field_proxy::Proxy;
use intruder_words::Overheard;
use master_node::Node;
use message_types::{Body, Frame};
use operator_screen::Screen;
use plain_lists::Want;
use std::alloc::Global;
use world_entries::Event;

/// What an actor is.
#[derive(Drop)]
pub enum Role {
    Master(Node),
    Intruded(Overheard),
    Proxy(Proxy),
    Screen(Screen),
}

/// What the actor says at an event, where so many bodies can still be signed.
pub(crate) fn answer(
    alloc: Global,
    role: &mut Role,
    event: &Event,
    many: u64,
) -> Result<Vec<Body>, Want>
    requires { CanAnswer (event_of event.now) role.old }
    ensures said { IfOk result (λ bodies. (c : Contents) (actor : ℕ) (own : List HistoryEntry) (e : HistoryEntry) → Comes c actor own e → e.event ≡ event_of event.now
        → (is_correct (setup_of c) actor ≡ true → many ≡ room (setup_of c) own) → IsRole c actor own role.old → bodies.items ≡ e.said) }
    ensures ready { OnOk result ((c : Contents) (actor : ℕ) (own : List HistoryEntry) (e : HistoryEntry) → Comes c actor own e → e.event ≡ event_of event.now
        → (is_correct (setup_of c) actor ≡ true → many ≡ room (setup_of c) own) → IsRole c actor own role.old → IsReady c actor own e role.new) }
{
    match role {
        Role::Master(node) => answer_at_master(alloc, node, event),
        Role::Intruded(known) => {
            overhear(alloc, known, event)?;
            Ok(Vec::new(alloc))
        }
        Role::Proxy(proxy) => answer_at_proxy(alloc, proxy, event, many),
        Role::Screen(screen) => answer_at_screen(alloc, screen, event, many),
    }
}

/// Hands the actor the frames of what it said at the event.
pub(crate) fn close(role: &mut Role, event: &Event, frames: &[Frame]) -> Result<(), Want>
    ensures { OnOk result ((c : Contents) (actor : ℕ) (own : List HistoryEntry) (e : HistoryEntry) → Comes c actor own e → e.event ≡ event_of event.now
        → frames.now ≡ frames_after (setup_of c) actor own e → IsReady c actor own e role.old → IsRole c actor (own ++ e ∷ []) role.new) }
{
    match role {
        Role::Master(node) => hand(node, event, frames),
        Role::Intruded(_) | Role::Proxy(_) | Role::Screen(_) => Ok(()),
    }
}
