//! One turn of an actor.
ghost use Rattle.std.specs.Prelude.{◌≡◌, ◌+◌, ◌<◌, length, true, false, slice_get, IsTrue, IfOk, IfSome, OnOk};
ghost use Rattle.std.specs.List.{list_all};
ghost use Rattle.message_types.specs.Spelling.{has_spelling};
ghost use Rattle.scenario_file.specs.Reading.{contents};
ghost use Rattle.history_rules.specs.Setup.{stands};
ghost use Rattle.history_rules.specs.Legal.{TakesWell};
ghost use Rattle.world_entries.specs.Entries.{event_of};
ghost use Rattle.world_history.specs.State.{setup_in};
ghost use Rattle.world_history.specs.KeptState.{halted_in};
ghost use Rattle.station_turns.specs.Pace.{is_inside, turns_made, inputs_used};
ghost use Rattle.station_turns.specs.Turns.{stationed, IsAlive, CanAdd, TakesAt, Enters, Turns, event_next, held_back, event_from_input, kind_due};

use crate::adding::add;
use crate::giving::{event_given, named_if};
use crate::held::{Held, Turned, still_held, taking};
use crate::live::Live;
use crate::skipping::draw;
use plain_lists::{Vector, Want};
use scenario_file::Scenario;
use stamps::Stamps;
use world_entries::Event;

/// What the next entry besides skips is to be.
#[derive(Clone, Copy)]
pub enum Due {
    Tick,
    Input,
    Frame,
}

/// What the next entry besides skips is to be.
fn kind_of_next(live: &Live) -> Due
    requires { live.now.count < 4000 }
    ensures { result ≡ kind_due (live.now.count + 1) (slice_get live.now.inputs.items live.now.used) }
{
    let number = live.count + 1;
    if number % 4 == 0 {
        return Due::Tick;
    }
    if number % 4 == 1 && live.used < live.inputs.len() {
        return Due::Input;
    }
    Due::Frame
}

/// Adds an entry that goes by no input.
fn enter(
    live: &mut Live,
    scenario: &Scenario,
    stamp: u64,
    event: Event,
    back: Option<Held>,
) -> Result<Turned, Want>
    requires can { CanAdd (stationed live.old) stamp }
    requires scenario { contents scenario.now ≡ live.old.kept.bench.world }
    requires used { live.old.used ≡ inputs_used live.old.kept.bench.list }
    requires inside { is_inside (event_of event) ≡ true }
    requires taken { TakesWell (setup_in live.old.kept.bench) stamp (event_of event) }
    ensures enters { IfOk result (λ t. Enters (stationed live.old) stamp (event_of event) t (stationed live.new)) }
    ensures spelled { IfOk result (λ t. list_all has_spelling t.frames.items ≡ true) }
    ensures stand { IfOk result (λ t. t.cried ≡ false → list_all (stands (setup_in live.old.kept.bench)) t.frames.items ≡ true) }
    ensures back { IfOk result (λ t. t.held ≡ back) }
    ensures used { OnOk result (live.new.used ≡ inputs_used live.new.kept.bench.list) }
    ensures count { live.new.count ≡ live.old.count }
{
    let alloc = live.alloc;
    let posting = add(alloc, scenario, &mut live.kept, stamp, event)?;
    Ok(Turned {
        stamp: posting.stamp,
        frames: posting.frames,
        cried: posting.cries,
        to: Vector::new(alloc),
        held: back,
    })
}

/// Adds the entry of the next input. A word that the master can't say stays next, and the entry is a tick.
fn give(
    live: &mut Live,
    scenario: &Scenario,
    stamp: u64,
    back: Option<Held>,
) -> Result<Turned, Want>
    requires can { CanAdd (stationed live.old) stamp }
    requires scenario { contents scenario.now ≡ live.old.kept.bench.world }
    requires used { live.old.used ≡ inputs_used live.old.kept.bench.list }
    requires left { live.old.used < length live.old.inputs.items }
    ensures enters { IfOk result (λ t. Enters (stationed live.old) stamp (event_from_input (stationed live.old)) t (stationed live.new)) }
    ensures spelled { IfOk result (λ t. list_all has_spelling t.frames.items ≡ true) }
    ensures stand { IfOk result (λ t. t.cried ≡ false → list_all (stands (setup_in live.old.kept.bench)) t.frames.items ≡ true) }
    ensures back { IfOk result (λ t. t.held ≡ back) }
    ensures used { OnOk result (live.new.used ≡ inputs_used live.new.kept.bench.list) }
    ensures count { live.new.count ≡ live.old.count }
{
    let alloc = live.alloc;
    let input = &live.inputs[live.used];
    let Some(event) = event_given(alloc, &mut live.kept, input)? else {
        let posting = add(alloc, scenario, &mut live.kept, stamp, Event::Tick)?;
        return Ok(Turned {
            stamp: posting.stamp,
            frames: posting.frames,
            cried: posting.cries,
            to: Vector::new(alloc),
            held: back,
        });
    };
    let posting = add(alloc, scenario, &mut live.kept, stamp, event)?;
    let to = named_if(alloc, posting.cries, input)?;
    live.used += 1;
    Ok(Turned {
        stamp: posting.stamp,
        frames: posting.frames,
        cried: posting.cries,
        to,
        held: back,
    })
}

/// Adds the entry that is due.
fn enter_next(
    live: &mut Live,
    scenario: &Scenario,
    stamp: u64,
    held: Option<Held>,
) -> Result<Turned, Want>
    requires can { CanAdd (stationed live.old) stamp }
    requires scenario { contents scenario.now ≡ live.old.kept.bench.world }
    requires used { live.old.used ≡ inputs_used live.old.kept.bench.list }
    requires count { live.old.count ≡ turns_made live.old.kept.bench.list }
    requires few { live.old.count < 4000 }
    requires takes { TakesAt (setup_in live.old.kept.bench) stamp held }
    ensures enters { IfOk result (λ t. Enters (stationed live.old) stamp (event_next live.old.inputs.items live.old.kept.bench held) t (stationed live.new)) }
    ensures spelled { IfOk result (λ t. list_all has_spelling t.frames.items ≡ true) }
    ensures stand { IfOk result (λ t. t.cried ≡ false → list_all (stands (setup_in live.old.kept.bench)) t.frames.items ≡ true) }
    ensures back { IfOk result (λ t. t.held ≡ held_back live.old.inputs.items live.old.kept.bench held) }
    ensures used { OnOk result (live.new.used ≡ inputs_used live.new.kept.bench.list) }
    ensures count { live.new.count ≡ live.old.count }
{
    match kind_of_next(live) {
        Due::Tick => enter(live, scenario, stamp, Event::Tick, held),
        Due::Input => give(live, scenario, stamp, held),
        Due::Frame => enter(live, scenario, stamp, taking(held), None),
    }
}

/// One turn: the skips and the one entry that are due for the inputs left, the held frame and the stamps drawn.
pub(crate) fn turn(
    live: &mut Live,
    scenario: &Scenario,
    stamps: &Stamps,
    held: Option<Held>,
) -> Result<Turned, Want>
    requires alive { IsAlive (stationed live.old) live.old.used live.old.count }
    requires scenario { contents scenario.now ≡ live.old.kept.bench.world }
    requires of { live.old.seat.of ≡ stamps.now }
    requires running { halted_in live.old.kept.bench ≡ false }
    requires left { live.old.count < live.old.turns }
    requires stands { IfSome held (λ h. stands (setup_in live.old.kept.bench) h.frame ≡ true) }
    ensures turns { IfOk result (λ t. Turns (stationed live.old) held t (stationed live.new)) }
    ensures spelled { IfOk result (λ t. list_all has_spelling t.frames.items ≡ true) }
    ensures stand { IfOk result (λ t. t.cried ≡ false → list_all (stands (setup_in live.old.kept.bench)) t.frames.items ≡ true) }
    ensures alive { OnOk result (IsAlive (stationed live.new) live.new.used live.new.count) }
{
    let stamp = draw(live, scenario, stamps, &held)?;
    if live.kept.halted() {
        return Ok(Turned {
            stamp,
            frames: Vec::new(live.alloc),
            cried: false,
            to: Vector::new(live.alloc),
            held,
        });
    }
    let turned = enter_next(live, scenario, stamp, still_held(held, stamp))?;
    live.count += 1;
    Ok(turned)
}
