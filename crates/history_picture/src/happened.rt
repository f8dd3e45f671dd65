//! What happened at each entry of a history: it is acted once more, and each actor is looked at before and after.
ghost use Rattle.std.specs.Prelude.{◌≡◌, ◌<◌, ◌^◌, ◌++◌, ◌∷◌, [], length, map, true, false, nat_lt, IfOk, OnOk};
ghost use Rattle.std.specs.List.{list_all};
ghost use Rattle.scenario_file.specs.Reading.{contents};
ghost use Rattle.scenario_file.specs.Valid.{IsScenario};
ghost use Rattle.history_rules.specs.Legal.{IsLegal, TakesWell};
ghost use Rattle.world_entries.specs.Entries.{event_of, entry_of};
ghost use Rattle.world_rules.specs.Scenarios.{setup_of};
ghost use Rattle.world_history.specs.State.{setup_in, with_entry};
ghost use Rattle.history_picture.specs.Marks.{came, lane_of, lanes_in, last_stamp, mark_at, mark_by, marks_in, role_in, said_at, said_by, what_of};

use lane_pictures::{Lane, Mark, Role, What};
use plain_lists::{Copied, Want};
use run_lines::kind_of;
use scenario_file::Scenario;
use std::alloc::Global;
use world_entries::{Entry, Event, History};
use world_history::{Bench, all_benches, is_halted};

/// A lane for each actor in the order of their numbers, and a mark for each entry in order.
pub struct Happened {
    pub lanes: Vec<Lane>,
    pub marks: Vec<Mark>,
}

// Taken apart here once, so that no function proves it again.
impl Drop for Happened {
    fn drop(self) {
        let Happened { lanes: _, marks: _ } = self;
    }
}

/// What happened in a legal history, and to whom.
pub(crate) fn happened_in(
    alloc: Global,
    scenario: &Scenario,
    history: &History,
) -> Result<Happened, Want>
    requires valid { IsScenario (contents scenario.now) }
    requires legal { IsLegal (setup_of (contents scenario.now)) history.now }
    requires short { length history.now < 2 ^ 32 }
    ensures lanes { IfOk result (λ happened. happened.lanes.items ≡ lanes_in (contents scenario.now) history.now) }
    ensures marks { IfOk result (λ happened. happened.marks.items ≡ marks_in (contents scenario.now) history.now) }
{
    let mut benches = all_benches(alloc, scenario)?;
    let mut marks = Vec::new(alloc);
    let entries = history.entries();
    for entry in entries {
        let role = role_of(scenario, entry.actor);
        let what = what_of(entries, &entry.event);
        push_mark(
            &mut marks,
            role,
            what,
            &mut benches[entry.actor as usize],
            entry,
        )?;
    }
    let lanes = lanes_of(alloc, scenario, benches.as_slice())?;
    Ok(Happened { lanes, marks })
}

/// How many updates an actor executed, how many values it wrote and notices it showed, and its view.
#[derive(Clone, Copy)]
pub struct Came {
    pub executed: u64,
    pub written: u64,
    pub shown: u64,
    pub view: u64,
}

/// How far the actor of a bench came.
fn far(bench: &Bench) -> Came
    requires { bench.now.is_spent ≡ false }
    ensures { result ≡ came bench.now }
{
    Came {
        executed: bench.executions().len() as u64,
        written: bench.writes().len() as u64,
        shown: bench.board().len() as u64,
        view: bench.view(),
    }
}

/// Has a bench do an entry of its actor, and appends the mark of that entry.
fn push_mark(
    marks: &mut Vec<Mark>,
    role: Role,
    what: What,
    bench: &mut Bench,
    entry: &Entry,
) -> Result<(), Want>
    requires fits { (setup_in bench.old).fits bench.old.actor (event_of entry.now.event) ≡ true }
    requires later { list_all (λ e. nat_lt e.stamp entry.now.stamp) bench.old.list ≡ true }
    requires taken { TakesWell (setup_in bench.old) entry.now.stamp (event_of entry.now.event) }
    requires short { length bench.old.list < 2 ^ 32 }
    requires works { bench.old.is_spent ≡ false }
    ensures bench { OnOk result (bench.new ≡ with_entry bench.old entry.now.stamp (event_of entry.now.event)) }
    ensures marks { OnOk result (marks.new.items ≡ marks.old.items ++ mark_at role what bench.old bench.new (entry_of entry.now) ∷ []) }
{
    let since = last_stamp(bench.list());
    let before = far(bench);
    let event = entry.event.copy()?;
    bench.act(entry.stamp, event)?;
    marks.push(mark_by(entry, role, since, what, before, far(bench)))?;
    Ok(())
}

/// The mark of an entry, by what came to its actor, and how far this one came before it and after it.
fn mark_by(
    entry: &Entry,
    role: Role,
    since: Option<u64>,
    what: What,
    before: Came,
    after: Came,
) -> Mark
    ensures { result ≡ mark_by role since what before after (entry_of entry.now) }
{
    Mark {
        stamp: entry.stamp,
        actor: entry.actor,
        role,
        since,
        what,
        said: entry.said.len() as u64,
        executed: after.executed.saturating_sub(before.executed),
        written: after.written.saturating_sub(before.written),
        shown: after.shown.saturating_sub(before.shown),
        was: before.view,
        view: after.view,
    }
}

/// The stamp of the last of an actor's entries.
fn last_stamp(list: &[Entry]) -> Option<u64>
    ensures { result ≡ last_stamp (map entry_of list.now) }
{
    match list.last() {
        Some(entry) => Some(entry.stamp),
        None => None,
    }
}

/// What came to an actor at an event of a history of these entries.
fn what_of(entries: &[Entry], event: &Event) -> What
    ensures { result ≡ what_of (map entry_of entries.now) (event_of event.now) }
{
    match event {
        Event::Took {
            stamp,
            place,
            frame,
        } => What::Took {
            kind: kind_of(&frame.frame().body),
            by: said_by(entries, *stamp, frame.frame().signer),
            said_at: said_at(*stamp, *place),
        },
        Event::Tick => What::Tick,
        Event::Command { op: _ } => What::Command,
        Event::Field {
            area: _,
            place: _,
            value: _,
        } => What::Field,
        Event::Poll => What::Poll,
        Event::Cry { bytes: _ } => What::Cry,
        Event::Skip => What::Skip,
        Event::Restart => What::Restart,
    }
}

/// Where a frame was said. One that a printed run tells by its bytes, which nobody said, has a place that no body has.
fn said_at(stamp: u64, place: u32) -> Option<u64>
    ensures { result ≡ said_at stamp place }
{
    if place == u32::MAX { None } else { Some(stamp) }
}

/// Who said a frame: the entry of a stamp is the one at that place.
fn said_by(entries: &[Entry], stamp: u64, signer: u32) -> u32
    ensures { result ≡ said_by (map entry_of entries.now) stamp signer }
{
    match entries.get(stamp as usize) {
        Some(entry) => entry.actor,
        None => signer,
    }
}

/// What an actor is.
fn role_of(scenario: &Scenario, actor: u32) -> Role
    requires { IsScenario (contents scenario.now) }
    ensures { result ≡ role_in (contents scenario.now) actor }
{
    if actor >= scenario.cast().masters {
        Role::Client
    } else if scenario.intruded.has(actor) {
        Role::Intruded
    } else {
        Role::Master
    }
}

/// One lane for each bench's actor, in their order.
fn lanes_of(alloc: Global, scenario: &Scenario, benches: &[Bench]) -> Result<Vec<Lane>, Want>
    requires { IsScenario (contents scenario.now) }
    ensures { IfOk result (λ lanes. lanes.items ≡ map (lane_of (contents scenario.now)) benches.now) }
{
    let mut lanes = Vec::new(alloc);
    for bench in benches {
        lanes.push(lane_of(scenario, bench))?;
    }
    Ok(lanes)
}

fn lane_of(scenario: &Scenario, bench: &Bench) -> Lane
    requires { IsScenario (contents scenario.now) }
    ensures { result ≡ lane_of (contents scenario.now) bench.now }
{
    let actor = bench.actor();
    Lane {
        actor,
        role: role_of(scenario, actor),
        is_halted: is_halted(scenario, actor, bench.list()),
    }
}
