//! Which actors are halted: those of whose keepers' calls one failed.
ghost use Rattle.std.specs.Prelude.{◌≡◌, ◌≤◌, ◌&&◌, length, map, nat_le};
ghost use Rattle.std.specs.List.{list_any};
ghost use Rattle.scenario_file.specs.Reading.{contents};
ghost use Rattle.history_rules.specs.Keeping.{keeper_calls, calls_at, is_halted};
ghost use Rattle.world_entries.specs.Entries.{entry_of};
ghost use Rattle.world_rules.specs.Scenarios.{setup_of};

use scenario_file::Scenario;
use world_entries::{Entry, Event};

/// How many calls of its actor's keeper an entry is.
pub fn calls_at(entry: &Entry) -> u64
    ensures calls { result ≡ length (calls_at (entry_of entry.now)) }
    ensures few { result ≤ 2 }
{
    match entry.event {
        Event::Restart => 2,
        _ => 1,
    }
}

fn calls_of(entries: &[Entry]) -> u64
    ensures { result ≡ length (keeper_calls (map entry_of entries.now)) }
{
    let mut calls = 0u64;
    for entry in entries {
        calls += calls_at(entry);
    }
    calls
}

/// Whether of so many calls of an actor's keeper one failed.
pub fn fails(scenario: &Scenario, actor: u32, calls: u64) -> bool
    ensures { result ≡ list_any (λ x. nat_le 1 x && nat_le x calls) ((setup_of (contents scenario.now)).failing actor) }
{
    match scenario.failing.get(actor as usize) {
        Some(numbers) => is_among(numbers.as_slice(), calls),
        None => false,
    }
}

/// Whether one of the numbers is from 1 to `most`.
fn is_among(numbers: &[u64], most: u64) -> bool
    ensures { result ≡ list_any (λ x. nat_le 1 x && nat_le x most) numbers.now }
{
    numbers.iter().any(|number| 1 <= *number && *number <= most)
}

/// Whether an actor with these entries of its own is halted.
pub fn is_halted(scenario: &Scenario, actor: u32, entries: &[Entry]) -> bool
    ensures { result ≡ is_halted (setup_of (contents scenario.now)) actor (map entry_of entries.now) }
{
    fails(scenario, actor, calls_of(entries))
}
